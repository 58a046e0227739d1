// The fault from the floor, on a bench: a station writes a target pressure and then corrects it, and ejects the entry.
// The next owner reads the correction.
use super::told::Told;
use engine::bench::Bench;
use home::holding_buffer::HoldingBuffer;
use home::pair_home::PairHome;
use model::step::Step;
use path::first_come::FirstCome;
use std::io;

pub fn show(rt: &impl Print) -> io::Result<()> {
    let memory = HoldingBuffer::new(PairHome::new(64, 0));
    let mut bench = Bench::open(2, 1, memory, FirstCome::new());
    println!(rt; "two boards, 64 cells of 0, one cache entry each:")?;
    for (what, step) in hand_over(3) {
        println!(rt; "  {what}: {}", Told(bench.perform(step)))?;
    }
    Ok(())
}

fn hand_over(cell: u32) -> [(&'static str, Step); 16] {
    let write = |cell, word| Step::Write {
        board: 0,
        cell,
        word,
    };
    let acquire = |board| Step::Acquire { board, cell };
    let release = |board| Step::Release { board, cell };
    [
        ("board 0 acquires the cell", acquire(0)),
        ("board 0 writes the target 620", write(cell, 620)),
        ("board 0 writes it back", Step::WriteBack { board: 0, cell }),
        ("board 0 writes the correction 580", write(cell, 580)),
        ("board 0 writes another cell", write(4, 1)),
        ("board 0 releases the cell", release(0)),
        ("board 0 ejects the entry", Step::Eject { board: 0, cell }),
        ("board 0 releases the cell", release(0)),
        ("board 1 acquires the cell", acquire(1)),
        ("a write back lands", Step::Land),
        ("a write back lands", Step::Land),
        ("a write back lands", Step::Land),
        ("board 0 releases the cell", release(0)),
        ("board 1 acquires the cell", acquire(1)),
        ("board 1 reads it", Step::Read { board: 1, cell }),
        ("board 2 reads it", Step::Read { board: 2, cell }),
    ]
}
