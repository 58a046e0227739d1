// Reads a log from standard input, and prints the verdict on it: its number, and one sentence for a person.
#![tactic(auto)]

use station::log::judge_log;
use std::io;
use text::input::read_text;

mod sentence;

fn main(rt: HostRuntime) -> io::Result<()> {
    let bytes = read_text(rt.alloc(), rt.stdin())?;
    let verdict = judge_log(bytes.as_slice());
    println!(rt; "verdict={}", verdict.number())?;
    sentence::tell(&rt, verdict, bytes.as_slice())
}
