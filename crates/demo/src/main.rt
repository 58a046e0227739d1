// A walk through the layers, one short scene each: what a station does, and what the parts below then hold.
#![tactic(auto)]

use std::io;

mod floor;
mod judging;
mod memory;
mod paths;
mod told;

fn main(rt: HostRuntime) -> io::Result<()> {
    memory::show(&rt)?;
    paths::show(&rt)?;
    judging::show(&rt)?;
    floor::show(&rt)
}
