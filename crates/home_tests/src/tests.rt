use super::{stored, through_buffer, through_pairs, through_pile, through_words};
use home::frozen_image::FrozenImage;
use home::holding_buffer::HoldingBuffer;
use home::pair_home::PairHome;
use home::source::{Home, Source};
use home::word_home::WordHome;
use model::refusal::Refusal;
use std::process::Abort;
use std::test::Fail;

const NONE: Result<u32, Refusal> = Err(Refusal::NoSuchCell);

const REFUSED: Result<(), Refusal> = Err(Refusal::NoSuchCell);

// A read is refused at the size, just past it and far past it.
fn unread_outside<S: Source>(rt: &impl Abort, source: &S, size: u32) {
    assert_eq!(rt; source.size(), size);
    let past = source.size() + 1;
    assert_eq!(rt; source.read(size), NONE);
    assert_eq!(rt; source.read(past), NONE);
    assert_eq!(rt; source.read(65_536), NONE);
    assert_eq!(rt; source.read(u32::MAX), NONE);
}

// So is a write, and then neither the size nor any word has changed.
fn unwritten_outside<H: Home>(rt: &impl Abort, home: &mut H, words: &[u32]) {
    let size = home.size();
    let past = home.size() + 1;
    assert_eq!(rt; home.write(size, 7), REFUSED);
    assert_eq!(rt; home.write(past, 7), REFUSED);
    assert_eq!(rt; home.write(65_536, 7), REFUSED);
    assert_eq!(rt; home.write(u32::MAX, 7), REFUSED);
    same_words(rt, home, words);
    unread_outside(rt, home, size);
}

fn same_words<S: Source>(rt: &impl Abort, source: &S, words: &[u32]) {
    assert_eq!(rt; source.size() as usize, words.len());
    for (cell, word) in (0..source.size()).zip(words) {
        assert_eq!(rt; source.read(cell), Ok(*word));
    }
}

#[test]
fn a_word_home_has_the_callers_words(rt: HostRuntime) {
    let mut list = [5, 6, u32::MAX];
    let mut home = WordHome::new(&mut list);
    unwritten_outside(&rt, &mut home, &[5, 6, u32::MAX]);
    assert_eq!(rt; home.write(2, 9), Ok(()));
    unwritten_outside(&rt, &mut home, &[5, 6, 9]);
    assert_eq!(rt; home.write(0, 0), Ok(()));
    same_words(&rt, &home, &[0, 6, 9]);
}

#[test]
fn an_empty_list_has_no_cells(rt: HostRuntime) {
    let mut list = [0; 0];
    let mut home = WordHome::new(&mut list);
    unwritten_outside(&rt, &mut home, &[]);
}

#[test]
fn a_longer_list_counts_up_to_65536(rt: HostRuntime) -> Result<(), Fail> {
    let mut list = vec![in rt.alloc(); 3; 65_538]?;
    let mut home = WordHome::new(list.as_mut_slice());
    unread_outside(&rt, &home, 65_536);
    assert_eq!(rt; home.write(65_535, 4), Ok(()));
    assert_eq!(rt; home.write(65_536, 4), REFUSED);
    assert_eq!(rt; home.read(65_535), Ok(4));
    assert_eq!(rt; list.get(65_535).copied(), Some(4));
    assert_eq!(rt; list.get(65_536).copied(), Some(3));
    Ok(())
}

#[test]
fn the_callers_list_holds_what_was_written(rt: HostRuntime) {
    let mut list = [1, 2];
    stored(&mut list, 1, 8);
    stored(&mut list, 2, 9);
    assert_eq!(rt; list[0], 1);
    assert_eq!(rt; list[1], 8);
}

#[test]
fn a_pair_home_has_at_most_64_cells(rt: HostRuntime) {
    unwritten_outside(&rt, &mut PairHome::new(0, 3), &[]);
    unwritten_outside(&rt, &mut PairHome::new(65, 3), &[]);
    unwritten_outside(&rt, &mut PairHome::new(u32::MAX, 3), &[]);
    unwritten_outside(&rt, &mut PairHome::new(64, 3), &[3; 64]);
}

// Every cell is written, and written again, so that each pair is found and none is added twice.
#[test]
fn a_pair_home_keeps_each_cell_once(rt: HostRuntime) {
    let mut home = PairHome::new(64, 3);
    for round in 1..3 {
        for cell in 0..64 {
            assert_eq!(rt; home.write(63 - cell, round), Ok(()));
        }
    }
    assert_eq!(rt; home.write(5, 9), Ok(()));
    let mut words = [2; 64];
    words[5] = 9;
    unwritten_outside(&rt, &mut home, &words);
}

#[test]
fn an_image_counts_whole_words(rt: HostRuntime) {
    let bytes = [0x12, 0x34, 0x56, 0x78, 0xff, 0xfe, 0xfd];
    for len in 0..8 {
        let image = FrozenImage::new(&bytes[0..len]);
        if len < 4 {
            unread_outside(&rt, &image, 0);
        } else {
            unread_outside(&rt, &image, 1);
            same_words(&rt, &image, &[0x1234_5678]);
        }
    }
    let image = FrozenImage::new(&[0, 0, 0, 1, 0xff, 0xff, 0xff, 0xff]);
    unread_outside(&rt, &image, 2);
    same_words(&rt, &image, &[1, u32::MAX]);
}

#[test]
fn a_longer_image_counts_up_to_65536(rt: HostRuntime) -> Result<(), Fail> {
    let bytes = vec![in rt.alloc(); 1; 262_150]?;
    let image = FrozenImage::new(bytes.as_slice());
    unread_outside(&rt, &image, 65_536);
    assert_eq!(rt; image.read(65_535), Ok(0x0101_0101));
    Ok(())
}

// Cells 3 and 11 share a place: the write of one sends the other below, and a read takes no place.
#[test]
fn a_buffer_holds_back_and_sends(rt: HostRuntime) {
    let mut buffer = HoldingBuffer::new(PairHome::new(16, 0));
    assert_eq!(rt; buffer.write(3, 620), Ok(()));
    assert_eq!(rt; buffer.write(3, 580), Ok(()));
    assert_eq!(rt; buffer.below().read(3), Ok(0));
    assert_eq!(rt; buffer.read(11), Ok(0));
    assert_eq!(rt; buffer.below().read(3), Ok(0));
    assert_eq!(rt; buffer.write(11, 7), Ok(()));
    assert_eq!(rt; buffer.below().read(3), Ok(580));
    assert_eq!(rt; buffer.below().read(11), Ok(0));
    unwritten_outside(
        &rt,
        &mut buffer,
        &[0, 0, 0, 580, 0, 0, 0, 0, 0, 0, 0, 7, 0, 0, 0, 0],
    );
    assert_eq!(rt; buffer.below().read(11), Ok(0));
}

#[test]
fn buffers_pile(rt: HostRuntime) {
    let mut pile = HoldingBuffer::new(HoldingBuffer::new(PairHome::new(20, 1)));
    assert_eq!(rt; pile.write(2, 20), Ok(()));
    assert_eq!(rt; pile.write(10, 30), Ok(()));
    assert_eq!(rt; pile.write(18, 40), Ok(()));
    assert_eq!(rt; pile.read(2), Ok(20));
    assert_eq!(rt; pile.below().read(10), Ok(30));
    assert_eq!(rt; pile.below().read(18), Ok(1));
    assert_eq!(rt; pile.below().below().read(2), Ok(20));
    assert_eq!(rt; pile.below().below().read(10), Ok(1));
    unread_outside(&rt, &pile, 20);
}

#[test]
fn a_written_word_is_read_back_at_every_home(rt: HostRuntime) {
    assert_eq!(rt; through_words(&mut [1, 2], 1, 5), Ok(5));
    assert_eq!(rt; through_words(&mut [1, 2], 2, 5), NONE);
    assert_eq!(rt; through_pairs(4, 0, 3, 5), Ok(5));
    assert_eq!(rt; through_pairs(4, 0, 4, 5), NONE);
    assert_eq!(rt; through_buffer(9, 0, 8, 5), Ok(5));
    assert_eq!(rt; through_buffer(9, 0, 9, 5), NONE);
    assert_eq!(rt; through_pile(64, 0, 63, 5), Ok(5));
    assert_eq!(rt; through_pile(65, 0, 0, 5), NONE);
}
