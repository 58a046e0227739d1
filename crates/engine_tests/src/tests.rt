use engine::bench::Bench;
use home::holding_buffer::HoldingBuffer;
use home::pair_home::PairHome;
use home::source::{Home, Source};
use home::word_home::WordHome;
use model::answer::Answer;
use model::carry::Carry;
use model::refusal::Refusal;
use model::step::Step;
use path::first_come::FirstCome;
use path::path::Path;
use rota::rota::Rota;
use std::process::Abort;

fn pairs(boards: u32, entries: u32, cells: u32) -> Bench<PairHome, FirstCome> {
    Bench::open(boards, entries, PairHome::new(cells, 0), FirstCome::new())
}

// A carry of the word 1 to cell 0.
fn one_from(board: u32) -> Carry {
    Carry {
        board,
        cell: 0,
        word: 1,
    }
}

fn no<T>(refusal: Refusal) -> Result<T, Refusal> {
    Err(refusal)
}

// A refused bench tells why, and refuses every step with 1.
fn refused<H: Home + Drop, P: Path + Drop>(rt: &impl Abort, mut bench: Bench<H, P>, why: Refusal) {
    assert_eq!(rt; bench.refusal(), Some(why));
    assert_eq!(rt; bench.read(0, 0), no(Refusal::NoSuchBoard));
    assert_eq!(rt; bench.write(0, 0, 1), no(Refusal::NoSuchBoard));
    assert_eq!(rt; bench.acquire(0, 0), no(Refusal::NoSuchBoard));
    assert_eq!(rt; bench.release(0, 0), no(Refusal::NoSuchBoard));
    assert_eq!(rt; bench.write_back(0, 0), no(Refusal::NoSuchBoard));
    assert_eq!(rt; bench.eject(0, 0), no(Refusal::NoSuchBoard));
    assert_eq!(rt; bench.land(), no(Refusal::NoSuchBoard));
}

#[test]
fn opening_checks_sizes(rt: HostRuntime) {
    refused(&rt, pairs(0, 1, 1), Refusal::SizeOutOfRange);
    refused(&rt, pairs(9, 1, 1), Refusal::SizeOutOfRange);
    refused(&rt, pairs(1, 0, 1), Refusal::SizeOutOfRange);
    refused(&rt, pairs(1, 9, 1), Refusal::SizeOutOfRange);
    refused(&rt, pairs(1, 1, 0), Refusal::SizeOutOfRange);
    refused(&rt, pairs(u32::MAX, 1, 1), Refusal::SizeOutOfRange);
    let mut list = [0; 65];
    let wide = WordHome::new(&mut list);
    refused(
        &rt,
        Bench::open(1, 1, wide, FirstCome::new()),
        Refusal::SizeOutOfRange,
    );
    assert_eq!(rt; pairs(8, 8, 64).refusal(), None);
}

#[test]
fn opening_wants_an_empty_path(rt: HostRuntime) {
    let mut path = FirstCome::new();
    assert_eq!(rt; path.start(one_from(7)), Ok(()));
    refused(
        &rt,
        Bench::open(1, 1, PairHome::new(1, 0), path),
        Refusal::PathNotEmpty,
    );
    let mut path = FirstCome::new();
    assert_eq!(rt; path.start(one_from(7)), Ok(()));
    refused(
        &rt,
        Bench::open(0, 1, PairHome::new(1, 0), path),
        Refusal::SizeOutOfRange,
    );
}

#[test]
fn boards_and_cells_at_their_edges(rt: HostRuntime) {
    let mut bench = pairs(3, 2, 5);
    assert_eq!(rt; bench.read(2, 4), Ok(0));
    assert_eq!(rt; bench.read(3, 4), no(Refusal::NoSuchBoard));
    assert_eq!(rt; bench.read(2, 5), no(Refusal::NoSuchCell));
    assert_eq!(rt; bench.read(3, 5), no(Refusal::NoSuchBoard));
    assert_eq!(rt; bench.write(2, u32::MAX, 1), no(Refusal::NoSuchCell));
    assert_eq!(rt; bench.acquire(u32::MAX, 0), no(Refusal::NoSuchBoard));
    assert_eq!(rt; bench.eject(2, 5), no(Refusal::NoSuchCell));
    assert_eq!(rt; bench.land(), Ok(None));
}

#[test]
fn a_cache_has_its_entries_and_no_more(rt: HostRuntime) {
    let mut bench = pairs(1, 2, 4);
    assert_eq!(rt; bench.read(0, 0), Ok(0));
    assert_eq!(rt; bench.write(0, 1, 5), Ok(()));
    assert_eq!(rt; bench.read(0, 2), no(Refusal::CacheFull));
    assert_eq!(rt; bench.write(0, 2, 5), no(Refusal::CacheFull));
    assert_eq!(rt; bench.read(0, 1), Ok(5));
    assert_eq!(rt; bench.eject(0, 0), Ok(()));
    assert_eq!(rt; bench.eject(0, 0), no(Refusal::NotCached));
    assert_eq!(rt; bench.write(0, 2, 6), Ok(()));
    assert_eq!(rt; bench.read(0, 3), no(Refusal::CacheFull));
}

// The entry is gone, and the newest word is on its way: the board still reads what it wrote.
#[test]
fn a_read_finds_the_own_write_in_flight(rt: HostRuntime) {
    let mut bench = pairs(2, 1, 1);
    assert_eq!(rt; bench.write(0, 0, 1), Ok(()));
    assert_eq!(rt; bench.eject(0, 0), Ok(()));
    assert_eq!(rt; bench.home().read(0), Ok(0));
    assert_eq!(rt; bench.read(0, 0), Ok(1));
    assert_eq!(rt; bench.read(1, 0), Ok(0));
    assert_eq!(rt; bench.land(), Ok(Some(one_from(0))));
    assert_eq!(rt; bench.home().read(0), Ok(1));
    assert_eq!(rt; bench.read(1, 0), Ok(0));
    assert_eq!(rt; bench.eject(1, 0), Ok(()));
    assert_eq!(rt; bench.read(1, 0), Ok(1));
}

#[test]
fn a_release_waits_for_the_memory(rt: HostRuntime) {
    let mut bench = pairs(2, 1, 1);
    assert_eq!(rt; bench.release(0, 0), no(Refusal::NotOwner));
    assert_eq!(rt; bench.acquire(0, 0), Ok(()));
    assert_eq!(rt; bench.acquire(0, 0), no(Refusal::OwnedAlready));
    assert_eq!(rt; bench.acquire(1, 0), no(Refusal::OwnedByAnother));
    assert_eq!(rt; bench.release(1, 0), no(Refusal::NotOwner));
    assert_eq!(rt; bench.write(0, 0, 1), Ok(()));
    assert_eq!(rt; bench.release(0, 0), no(Refusal::UnsettledWrite));
    assert_eq!(rt; bench.write_back(0, 0), Ok(()));
    assert_eq!(rt; bench.write_back(0, 0), no(Refusal::NotDirty));
    assert_eq!(rt; bench.release(0, 0), no(Refusal::UnsettledWrite));
    assert_eq!(rt; bench.land(), Ok(Some(one_from(0))));
    assert_eq!(rt; bench.release(0, 0), Ok(()));
    assert_eq!(rt; bench.acquire(1, 0), Ok(()));
}

// An acquire forgets a clean entry and keeps a dirty one.
#[test]
fn an_acquire_empties_what_is_clean(rt: HostRuntime) {
    let mut bench = pairs(2, 1, 1);
    assert_eq!(rt; bench.read(1, 0), Ok(0));
    assert_eq!(rt; bench.write(0, 0, 1), Ok(()));
    assert_eq!(rt; bench.eject(0, 0), Ok(()));
    assert_eq!(rt; bench.land(), Ok(Some(one_from(0))));
    assert_eq!(rt; bench.read(1, 0), Ok(0));
    assert_eq!(rt; bench.acquire(1, 0), Ok(()));
    assert_eq!(rt; bench.write_back(1, 0), no(Refusal::NotCached));
    assert_eq!(rt; bench.read(1, 0), Ok(1));
    let mut bench = pairs(1, 1, 1);
    assert_eq!(rt; bench.write(0, 0, 7), Ok(()));
    assert_eq!(rt; bench.acquire(0, 0), Ok(()));
    assert_eq!(rt; bench.read(0, 0), Ok(7));
}

// As many write backs of one cell wait as a line is long; the next is refused, and its entry stays dirty.
fn fills_a_line<H: Home + Drop, P: Path + Drop>(
    rt: &impl Abort,
    mut bench: Bench<H, P>,
    long: u32,
) {
    for word in 1..=long {
        assert_eq!(rt; bench.write(0, 0, word), Ok(()));
        assert_eq!(rt; bench.write_back(0, 0), Ok(()));
    }
    assert_eq!(rt; bench.write(0, 0, 99), Ok(()));
    assert_eq!(rt; bench.write_back(0, 0), no(Refusal::LineFull));
    assert_eq!(rt; bench.eject(0, 0), no(Refusal::LineFull));
    assert_eq!(rt; bench.read(0, 0), Ok(99));
    assert_eq!(rt; bench.land(), Ok(Some(one_from(0))));
    assert_eq!(rt; bench.eject(0, 0), Ok(()));
    assert_eq!(rt; bench.read(0, 0), Ok(99));
}

#[test]
fn lines_fill_over_every_home_and_path(rt: HostRuntime) {
    let pile = HoldingBuffer::new(HoldingBuffer::new(PairHome::new(9, 0)));
    let mut list = [0, 0];
    fills_a_line(&rt, pairs(2, 1, 1), 8);
    fills_a_line(&rt, Bench::open(2, 1, PairHome::new(1, 0), Rota::new()), 4);
    fills_a_line(&rt, Bench::open(1, 1, pile, Rota::new()), 4);
    fills_a_line(
        &rt,
        Bench::open(8, 8, WordHome::new(&mut list), FirstCome::new()),
        8,
    );
}

const STEPS: [Step; 3] = [
    Step::Write {
        board: 0,
        cell: 0,
        word: 5,
    },
    Step::Release { board: 0, cell: 0 },
    Step::Read { board: 0, cell: 0 },
];

#[test]
fn a_run_answers_each_step_and_leaves_the_rest(rt: HostRuntime) {
    let mut bench = pairs(1, 1, 1);
    let mut answers = [Answer::NothingWaits; 4];
    assert_eq!(rt; bench.run(&STEPS, &mut answers), Ok(()));
    let expected = [
        Answer::Done,
        Answer::Refused(Refusal::NotOwner),
        Answer::Word(5),
        Answer::NothingWaits,
    ];
    assert_eq!(rt; answers, expected);
}

#[test]
fn a_run_wants_room_for_its_answers(rt: HostRuntime) {
    let mut bench = pairs(1, 1, 1);
    let mut answers = [Answer::NothingWaits; 2];
    assert_eq!(rt;
        bench.run(&STEPS, &mut answers),
        no(Refusal::AnswersTooShort)
    );
    assert_eq!(rt; answers, [Answer::NothingWaits; 2]);
    assert_eq!(rt; bench.read(0, 0), Ok(0));
    assert_eq!(rt; bench.run(&[], &mut []), Ok(()));
}
