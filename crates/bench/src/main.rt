// Reads a run from standard input, and prints what a bench answers to each step and whether its reads are legal.
#![tactic(auto)]

use report::whole::report_on;
use std::io;
use text::input::read_text;

fn main(rt: HostRuntime) -> io::Result<()> {
    let bytes = read_text(rt.alloc(), rt.stdin())?;
    let text = report_on(rt.alloc(), bytes.as_slice())?;
    print!(rt; "{text}")
}
