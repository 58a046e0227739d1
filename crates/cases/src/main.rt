// Runs each run and judges each log that is named on the command line, and compares what comes of it with the text that
// is stored beside it: of NAME.run and of NAME.log, in NAME.out.
#![tactic(auto)]

use report::whole::report_on;
use station::firmware::bench_verdict;
use std::{env, fs, io};

// Whether the text that came is the one that is stored.
fn compare(rt: &HostRuntime, name: &str, stem: &str, text: &str) -> io::Result<bool> {
    let stored = format!(in rt.alloc(); "{stem}.out")?;
    let expected = fs::read(rt, stored.as_str())?;
    if expected.as_slice() == text.as_bytes() {
        println!(rt; "{name} as expected")?;
        return Ok(true);
    }
    println!(rt; "{name} DIFFERS, there came:")?;
    print!(rt; "{text}")?;
    Ok(false)
}

// The text is what the program `bench` prints.
fn check_run(rt: &HostRuntime, name: &str, stem: &str) -> io::Result<bool> {
    let bytes = fs::read(rt, name)?;
    let text = report_on(rt.alloc(), bytes.as_slice())?;
    compare(rt, name, stem, text.as_str())
}

// The text is the number that the station firmware is answered, and a byte 10.
fn check_log(rt: &HostRuntime, name: &str, stem: &str) -> io::Result<bool> {
    let bytes = fs::read(rt, name)?;
    let number = bench_verdict(bytes.as_slice());
    let text = format!(in rt.alloc(); "{number}\n")?;
    compare(rt, name, stem, text.as_str())
}

fn check_file(rt: &HostRuntime, name: &str) -> io::Result<bool> {
    if let Some(stem) = name.strip_suffix(".run") {
        return check_run(rt, name, stem);
    }
    if let Some(stem) = name.strip_suffix(".log") {
        return check_log(rt, name, stem);
    }
    println!(rt; "{name} DIFFERS, it is neither a run nor a log")?;
    Ok(false)
}

fn main(rt: HostRuntime) -> io::Result<()> {
    let names = env::args(&rt)?;
    let mut found = Vec::new(rt.alloc());
    for name in names.skip(1) {
        found.push(check_file(&rt, name.as_str())?)?;
    }
    let good = found.iter().filter(|as_expected| **as_expected).count();
    println!(rt; "{good} of {} as expected", found.len())
}
