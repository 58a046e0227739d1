// Judges each log that is named on the command line, as the station firmware does, and prints its name and the number.
#![tactic(auto)]

use station::firmware::bench_verdict;
use std::{env, fs, io};

fn judge_file(rt: &HostRuntime, name: &str) -> io::Result<()> {
    let bytes = fs::read(rt, name)?;
    let number = bench_verdict(bytes.as_slice());
    println!(rt; "{name} {number}")
}

fn main(rt: HostRuntime) -> io::Result<()> {
    let names = env::args(&rt)?;
    for name in names.skip(1) {
        judge_file(&rt, name.as_str())?;
    }
    Ok(())
}
