use grammar::item::Item;
use grammar::kind::Kind;
use grammar::trace_step::TraceStep;
use model::refusal::Refusal;
use model::step::Step;
use text::fault::Fault;
use text::header::Header;
use text::placed_step::PlacedStep;
use text::reader::Reader;
use text::trace::Trace;

fn told(line: u32, step: TraceStep) -> Result<Option<PlacedStep>, Fault> {
    Ok(Some(PlacedStep { line, step }))
}

#[test]
fn a_log_hands_over_its_steps(rt: HostRuntime) {
    let text =
        b"trace=log\nboards=2\ncells=1\nentries=1\nstart=0\na=0.0\nw=0.0.1\nl=0.0\n# a remark\na=1.0\nr=1.0.0\n";
    let mut trace = Trace::open(Kind::Log, text);
    assert_eq!(rt;
        trace.header(),
        Ok(Header {
            boards: 2,
            cells: 1,
            entries: 1,
            start: 0,
        })
    );
    let owner = TraceStep::Plain(Step::Acquire { board: 0, cell: 0 });
    assert_eq!(rt; trace.next(), told(6, owner));
    assert_eq!(rt;
        trace.next(),
        told(
            7,
            TraceStep::Plain(Step::Write {
                board: 0,
                cell: 0,
                word: 1,
            }),
        )
    );
    assert_eq!(rt;
        trace.next(),
        told(8, TraceStep::Plain(Step::Release { board: 0, cell: 0 }))
    );
    assert_eq!(rt;
        trace.next(),
        told(10, TraceStep::Plain(Step::Acquire { board: 1, cell: 0 }))
    );
    assert_eq!(rt;
        trace.next(),
        told(
            11,
            TraceStep::ReadWord {
                board: 1,
                cell: 0,
                word: 0,
            },
        )
    );
    assert_eq!(rt; trace.next(), Ok(None));
    assert_eq!(rt; trace.next(), Ok(None));
}

#[test]
fn a_run_hands_over_every_step(rt: HostRuntime) {
    let text = b"trace=run\nboards=1\ncells=9\nentries=2\nstart=5\nr=0.1\nb=0.2\ne=0.3\nd=\n";
    let mut trace = Trace::open(Kind::Run, text);
    assert_eq!(rt;
        trace.next(),
        told(6, TraceStep::Plain(Step::Read { board: 0, cell: 1 }))
    );
    assert_eq!(rt;
        trace.next(),
        told(7, TraceStep::Plain(Step::WriteBack { board: 0, cell: 2 }))
    );
    assert_eq!(rt;
        trace.next(),
        told(8, TraceStep::Plain(Step::Eject { board: 0, cell: 3 }))
    );
    assert_eq!(rt; trace.next(), told(9, TraceStep::Plain(Step::Land)));
    assert_eq!(rt; trace.next(), Ok(None));
}

// A fault is not passed: it is answered again, and no later step is.
#[test]
fn a_fault_stays(rt: HostRuntime) {
    let text = b"trace=run\nboards=1\ncells=9\nentries=2\nstart=5\nd=\n# a remark\nd=0\nd=\n";
    let mut trace = Trace::open(Kind::Run, text);
    let fault = Err(Fault::new(Refusal::MalformedLine, 8));
    assert_eq!(rt; trace.next(), told(6, TraceStep::Plain(Step::Land)));
    assert_eq!(rt; trace.next(), fault);
    assert_eq!(rt; trace.next(), fault);
    let mut log = Trace::open(Kind::Log, text);
    assert_eq!(rt; log.next(), Err(Fault::new(Refusal::MalformedLine, 1)));
    assert_eq!(rt; log.next(), Err(Fault::new(Refusal::MalformedLine, 1)));
}

// The raw reader: a line of no form is tried, given up and still there.
#[test]
fn a_line_given_up_is_not_passed(rt: HostRuntime) {
    let mut reader = Reader::new(b"#ab\nw=0.1\nboards=2\nnothing\nr=1");
    assert_eq!(rt; reader.next(), Some(Item::Remark(b"ab")));
    let step = Item::Step {
        letter: b'w',
        rest: b"0.1",
    };
    assert_eq!(rt; reader.next(), Some(step));
    assert_eq!(rt; reader.next(), Some(Item::Field(b"boards=2")));
    for _ in 0..2 {
        assert_eq!(rt; reader.next(), None);
    }
    assert!(rt; !reader.at_end());
    assert!(rt; Reader::new(b"").at_end());
}
