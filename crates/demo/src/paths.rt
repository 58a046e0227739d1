// A target and its correction leave one board, with other boards' write backs between them. Whichever path they take,
// the correction lands last.
use super::told::Told;
use home::pair_home::PairHome;
use home::source::{Home, Source};
use model::carry::Carry;
use path::first_come::FirstCome;
use path::path::Path;
use rota::rota::Rota;
use std::io;

const TARGET: u32 = 3;

pub fn show(rt: &impl Print) -> io::Result<()> {
    println!(rt; "by first-come:")?;
    send(rt, FirstCome::new())?;
    println!(rt; "by the rota:")?;
    send(rt, Rota::new())
}

fn send<P: Path + Drop>(rt: &impl Print, mut path: P) -> io::Result<()> {
    for (board, cell, word) in [
        (6, TARGET, 620),
        (1, 9, 45),
        (6, TARGET, 580),
        (0, 9, 46),
        (1, 12, 7),
    ] {
        start(rt, &mut path, Carry { board, cell, word })?;
    }
    land_all(rt, &mut path)
}

fn start<P: Path>(rt: &impl Print, path: &mut P, carry: Carry) -> io::Result<()> {
    let Carry { board, cell, word } = carry;
    match path.start(carry) {
        Ok(()) => println!(rt; "  board {board} sends {word} to cell {cell}"),
        Err(refusal) => println!(rt; "  board {board} may not send {word}: {refusal}"),
    }
}

// No path holds more than 64 carries, eight of each board. The bound ends the loop: a `while let` would want a proof, of
// any path, that each landing leaves fewer.
fn land_all<P: Path>(rt: &impl Print, path: &mut P) -> io::Result<()> {
    let mut home = PairHome::new(64, 0);
    for _ in 0..64 {
        let Some(carry) = path.land() else {
            break;
        };
        let _ = home.write(carry.cell, carry.word);
        println!(rt; "  landed: {}", Told(carry))?;
    }
    match home.read(TARGET) {
        Ok(word) => println!(rt; "  cell {TARGET} of the home holds {word}"),
        Err(refusal) => println!(rt; "  cell {TARGET} is refused: {refusal}"),
    }
}
