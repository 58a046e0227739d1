use super::first_fault::{LOG, fault_in};
use grammar::kind::Kind;
use std::alloc::Global;
use std::io;
use std::io::Read;
use std::test::Fail;
use text::input::read_text;

// A log of so many steps, and then one more line.
fn steps(heap: Global, count: u32, last: &[u8]) -> Result<Vec<u8>, Fail> {
    let mut text = LOG.to_vec(heap)?;
    for _ in 0..count {
        text.extend_from_slice(b"d=\n")?;
    }
    text.extend_from_slice(last)?;
    Ok(text)
}

#[test]
fn a_trace_has_2048_steps_at_most(rt: HostRuntime) -> Result<(), Fail> {
    let cases: [(u32, &[u8], (u32, u32)); 6] = [
        (2_048, b"", (0, 0)),
        (2_048, b"# a remark\n", (0, 0)),
        (2_048, b"d=\n", (6, 2_054)),
        (2_048, b"d=1\n", (4, 2_054)),
        (2_048, b"d=\nx\n", (6, 2_054)),
        (2_047, b"x\nd=\nd=\n", (4, 2_053)),
    ];
    for (count, last, want) in cases {
        let text = steps(rt.alloc(), count, last)?;
        assert_eq!(rt; fault_in(Kind::Log, text.as_slice()), want);
    }
    Ok(())
}

// A log made up to its length by one remark, which ends it.
fn padded(heap: Global, length: usize) -> Result<Vec<u8>, Fail> {
    let mut text = LOG.to_vec(heap)?;
    text.resize(length.saturating_sub(1), b'#')?;
    text.push(b'\n')?;
    Ok(text)
}

#[test]
fn a_text_has_60000_bytes_at_most(rt: HostRuntime) -> Result<(), Fail> {
    let full = padded(rt.alloc(), 60_000)?;
    assert_eq!(rt; full.len(), 60_000);
    assert_eq!(rt; fault_in(Kind::Log, full.as_slice()), (0, 0));
    assert_eq!(rt; fault_in(Kind::Run, full.as_slice()), (4, 1));
    let over = padded(rt.alloc(), 60_001)?;
    assert_eq!(rt; over.len(), 60_001);
    assert_eq!(rt; fault_in(Kind::Log, over.as_slice()), (6, 0));
    assert_eq!(rt; fault_in(Kind::Run, over.as_slice()), (6, 0));
    Ok(())
}

// Of a longer text no more is read than shows that it is too long.
#[test]
fn a_text_is_read_up_to_60001_bytes(rt: HostRuntime) -> Result<(), Fail> {
    let log = read_text(rt.alloc(), LOG)?;
    assert_eq!(rt; log.as_slice(), LOG);
    let over = padded(rt.alloc(), 60_003)?;
    let read = read_text(rt.alloc(), over.as_slice())?;
    assert_eq!(rt; Some(read.as_slice()), over.get(..60_001));
    Ok(())
}

// A reader that fails after its first bytes.
#[derive(Drop)]
struct Failing;

impl Read for Failing {
    fn read(&mut self, _buf: &mut [u8]) -> io::Result<usize> {
        Err(io::Error::from(io::ErrorKind::ConnectionReset))
    }
}

#[test]
fn a_failed_read_is_no_text(rt: HostRuntime) -> Result<(), Fail> {
    let error = read_text(rt.alloc(), LOG.chain(Failing)).err();
    assert_eq!(rt;
        error.map(|e| e.kind()),
        Some(io::ErrorKind::ConnectionReset)
    );
    Ok(())
}
