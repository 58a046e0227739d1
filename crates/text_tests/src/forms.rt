use super::first_fault::{LOG, fault_in};
use grammar::kind::Kind;
use std::alloc::Global;
use std::test::Fail;

const RUN: &[u8] = b"trace=run\nboards=2\ncells=1\nentries=1\nstart=0\n";

// Whether a line is a step of a trace of that kind.
fn is_step(heap: Global, kind: Kind, line: &[u8]) -> Result<bool, Fail> {
    let header = match kind {
        Kind::Run => RUN,
        Kind::Log => LOG,
    };
    let mut text = header.to_vec(heap)?;
    text.extend_from_slice(line)?;
    text.push(b'\n')?;
    match fault_in(kind, text.as_slice()) {
        (0, 0) => Ok(true),
        (4, 6) => Ok(false),
        _ => Err(Fail::new("another fault")),
    }
}

#[test]
fn a_number_has_one_form(rt: HostRuntime) -> Result<(), Fail> {
    let good: [&[u8]; 5] = [
        b"w=0.0.0",
        b"w=1.10.100",
        b"w=0.0.4294967295",
        b"a=4294967295.4294967295",
        b"w=7.64.1000000000",
    ];
    for line in good {
        assert!(rt; is_step(rt.alloc(), Kind::Run, line)?);
    }
    let bad: [&[u8]; 14] = [
        b"w=0.0.4294967296",
        b"w=0.0.9999999999",
        b"w=0.0.10000000000",
        b"w=00.0.1",
        b"w=0.00.1",
        b"w=0.0.01",
        b"w=0.0.+1",
        b"w=0.0.-1",
        b"w= 0.0.1",
        b"w=0.0.1 ",
        b"w=0.0.1\r",
        b"w=0.0.\xb9",
        b"w=0.0.\x00",
        b"w=0.0.1\x00",
    ];
    for line in bad {
        assert!(rt; !is_step(rt.alloc(), Kind::Run, line)?);
    }
    Ok(())
}

// Each letter with too few, the right and too many numbers.
#[test]
fn a_letter_has_its_numbers(rt: HostRuntime) -> Result<(), Fail> {
    for letter in [b'r', b'w', b'a', b'l', b'b', b'e', b'd'] {
        let [none, one, two, three, four] = counts(rt.alloc(), Kind::Run, letter)?;
        assert_eq!(rt; none, letter == b'd');
        assert!(rt; !one);
        assert_eq!(rt; two, letter != b'w' && letter != b'd');
        assert_eq!(rt; three, letter == b'w');
        assert!(rt; !four);
        let [none, one, two, three, four] = counts(rt.alloc(), Kind::Log, letter)?;
        assert_eq!(rt; none, letter == b'd');
        assert!(rt; !one);
        assert_eq!(rt; two, letter != b'r' && letter != b'w' && letter != b'd');
        assert_eq!(rt; three, letter == b'r' || letter == b'w');
        assert!(rt; !four);
    }
    Ok(())
}

// Whether the letter is a step with no, one, two, three and four numbers.
fn counts(heap: Global, kind: Kind, letter: u8) -> Result<[bool; 5], Fail> {
    Ok([
        is_step(heap, kind, &[letter, b'='])?,
        is_step(heap, kind, &[letter, b'=', b'0'])?,
        is_step(heap, kind, &[letter, b'=', b'0', b'.', b'1'])?,
        is_step(heap, kind, &[letter, b'=', b'0', b'.', b'1', b'.', b'2'])?,
        is_step(
            heap,
            kind,
            &[letter, b'=', b'0', b'.', b'1', b'.', b'2', b'.', b'3'],
        )?,
    ])
}

#[test]
fn other_lines_are_no_steps(rt: HostRuntime) -> Result<(), Fail> {
    let bad: [&[u8]; 13] = [
        b"",
        b" ",
        b"r",
        b"r0.0",
        b"R=0.0",
        b"x=0.0",
        b"rr=0.0",
        b"=0.0",
        b" #",
        b"\xff=0.0",
        b"a=0.0.",
        b"a=.0",
        b"a=0..0",
    ];
    for line in bad {
        assert!(rt; !is_step(rt.alloc(), Kind::Run, line)?);
    }
    assert!(rt; is_step(rt.alloc(), Kind::Run, b"#")?);
    assert!(rt; is_step(rt.alloc(), Kind::Run, b"# \xff\x00 a=0.0")?);
    Ok(())
}
