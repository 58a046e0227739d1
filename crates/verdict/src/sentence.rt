// The verdict in words.
use grammar::kind::Kind;
use home::pair_home::PairHome;
use indexmap::IndexSet;
use judge::hearing::Hearing;
use judge::judge::{FREE, MOST_EVENTS};
use model::event::Action;
use station::task::{Task, task_of};
use station::verdict::Verdict;
use std::io;
use text::fault::{Fault, Layer};
use text::trace::Trace;

pub fn tell(rt: &HostRuntime, verdict: Verdict, log: &[u8]) -> io::Result<()> {
    match verdict {
        Verdict::AllLegal => println!(rt; "All reads of the log are legal."),
        Verdict::FalseRead { line } => tell_false_read(rt, line, log),
        Verdict::Faulty(fault) => tell_fault(rt, fault),
    }
}

// No `Display` of `Fault`: the sentences are of a log, and a run has faults too.
fn tell_fault(rt: &HostRuntime, fault: Fault) -> io::Result<()> {
    let Fault {
        refusal,
        line,
        layer,
    } = fault;
    match (layer, line) {
        (_, 0) => println!(rt; "The log as a whole is faulty: {refusal}."),
        (Layer::Text, _) => println!(rt;
            "The text of the log is faulty at line {line}: {refusal}."
        ),
        (Layer::Header, _) => println!(rt;
            "The header of the log is faulty at line {line}: {refusal}."
        ),
        (Layer::Judge, _) => println!(rt; "The judge refuses the step at line {line}: {refusal}."),
    }
}

// Takes the log's steps again up to the read at that line, and asks the judge there which of the words written so far
// it could have answered.
fn tell_false_read(rt: &HostRuntime, line: u32, log: &[u8]) -> io::Result<()> {
    let mut trace = Trace::open(Kind::Log, log);
    let Ok(header) = trace.header() else {
        return Ok(());
    };
    let home = PairHome::new(header.cells, header.start);
    let mut events = [FREE; MOST_EVENTS];
    let mut hearing = Hearing::new(&mut events, header.boards, &home);
    // Each word once, in the order of the first writes.
    let mut words = IndexSet::new(rt.alloc());
    words.insert(header.start)?;
    while let Ok(Some(placed)) = trace.next() {
        match task_of(placed.step) {
            Task::Note(event) => {
                let _ = hearing.note(event);
                if let Action::Write(word) = event.action {
                    words.insert(word)?;
                }
            }
            Task::Check { board, cell, word } if placed.line == line => {
                print!(rt;
                    "Line {line}: board {board} read {word} from cell {cell}; readable for it there"
                )?;
                let readable: Vec<u32> = words
                    .iter()
                    .copied()
                    .filter(|w| matches!(hearing.legal(board, cell, *w), Ok(Some(_))))
                    .collect(rt.alloc())?;
                return tell_words(rt, readable.as_slice());
            }
            _ => {}
        }
    }
    Ok(())
}

fn tell_words(rt: &HostRuntime, words: &[u32]) -> io::Result<()> {
    match words {
        [only] => println!(rt; " was only {only}."),
        [first, others @ ..] => {
            print!(rt; " were {first}")?;
            for word in others {
                print!(rt; ", {word}")?;
            }
            println!(rt; ".")
        }
        [] => println!(rt; " was no word."),
    }
}
