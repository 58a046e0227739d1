// A station sets a target pressure and corrects it, through a holding buffer over a pair home.
use home::holding_buffer::HoldingBuffer;
use home::pair_home::PairHome;
use home::source::{Home, Source};
use model::refusal::Refusal;
use std::io;

type Memory = HoldingBuffer<PairHome>;

// The cell of the target pressure, and the cell that belongs in the same place of the buffer.
const TARGET: u32 = 3;

const NEIGHBOUR: u32 = 11;

pub fn show(rt: &impl Print) -> io::Result<()> {
    let mut memory = HoldingBuffer::new(PairHome::new(64, 0));
    println!(rt; "memory: 64 cells of 0, a holding buffer over a pair home")?;
    write(rt, &mut memory, TARGET, 620)?;
    tell(rt, &memory)?;
    write(rt, &mut memory, TARGET, 580)?;
    tell(rt, &memory)?;
    write(rt, &mut memory, NEIGHBOUR, 45)?;
    tell(rt, &memory)?;
    write(rt, &mut memory, 64, 700)?;
    read(rt, &memory, 64)?;
    read(rt, &memory, u32::MAX)?;
    tell(rt, &memory)
}

fn write(rt: &impl Print, memory: &mut Memory, cell: u32, word: u32) -> io::Result<()> {
    match memory.write(cell, word) {
        Ok(()) => println!(rt; "the station writes {word} to cell {cell}"),
        Err(refusal) => refused(rt, "writing", cell, refusal),
    }
}

fn read(rt: &impl Print, memory: &Memory, cell: u32) -> io::Result<()> {
    match memory.read(cell) {
        Ok(word) => println!(rt; "the station reads {word} from cell {cell}"),
        Err(refusal) => refused(rt, "reading", cell, refusal),
    }
}

fn refused(rt: &impl Print, what: &str, cell: u32, refusal: Refusal) -> io::Result<()> {
    let number = refusal.number();
    println!(rt; "{what} cell {cell} is refused with {number}: {refusal}")
}

// What the station reads, and what the home below holds at that moment.
fn tell(rt: &impl Print, memory: &Memory) -> io::Result<()> {
    beside(rt, memory, TARGET)?;
    beside(rt, memory, NEIGHBOUR)
}

fn beside(rt: &impl Print, memory: &Memory, cell: u32) -> io::Result<()> {
    match (memory.read(cell), memory.below().read(cell)) {
        (Ok(seen), Ok(below)) => println!(rt;
            "  cell {cell} reads {seen}; the home below holds {below}"
        ),
        (Err(refusal), _) | (_, Err(refusal)) => refused(rt, "reading", cell, refusal),
    }
}
