//! Trees read letter by letter, worked by hand.

use super::*;
use case_types::Cell;
use std::process::Abort;

/// 1 in 2^-20.
const WHOLE: u32 = 1 << 20;

/// 1 in 2^-40.
const ONE: u64 = 1 << 40;

/// A text that is read by as many letters as stated, and what is left of the tree behind it.
#[derive(Clone, Copy)]
struct Trial {
    n: u8,
    letters: u32,
    text: &'static [u8],
    /// The place of the first byte that is refused, from 0; the length of the text where none is.
    refused: usize,
    leaves: u32,
    depth: u32,
    left: u32,
}

/// A trial as a row of a table, in the order of its fields.
const fn row(
    n: u8,
    letters: u32,
    text: &'static [u8],
    refused: usize,
    leaves: u32,
    depth: u32,
    left: u32,
) -> Trial {
    Trial {
        n,
        letters,
        text,
        refused,
        leaves,
        depth,
        left,
    }
}

#[test]
fn reads_whole_trees(rt: HostRuntime) {
    for trial in [
        row(1, 1, b"m", 1, 1, 0, 0),
        row(1, 1, b"p", 1, 1, 0, 0),
        row(4, 1, b"s", 1, 1, 0, 0),
        row(1, 3, b"ypp", 3, 2, 0, 0),
        row(2, 5, b"1ypsm", 5, 3, 0, 0),
        row(3, 5, b"2p1mm", 5, 3, 0, 0),
        row(4, 9, b"123ympspm", 9, 5, 0, 0),
    ] {
        tried(&rt, &trial);
    }
}

#[test]
fn reads_a_beginning(rt: HostRuntime) {
    for trial in [
        row(1, 1, b"", 0, 0, 1, 1),
        row(2, 5, b"1yp", 3, 1, 2, 2),
        row(4, 60_000_000, b"333", 3, 0, 4, 59_999_997),
    ] {
        tried(&rt, &trial);
    }
}

#[test]
fn refuses(rt: HostRuntime) {
    for trial in [
        // the stated number is used up
        row(1, 0, b"p", 0, 0, 1, 0),
        row(2, 2, b"1pp", 2, 1, 1, 0),
        // a letter behind the tree
        row(1, 2, b"pp", 1, 1, 0, 1),
        row(1, 1, b"pp", 1, 1, 0, 0),
        row(1, 1, b"p\n", 1, 1, 0, 0),
        // no edge of so many components
        row(1, 3, b"1pp", 0, 0, 1, 3),
        row(2, 3, b"2pp", 0, 0, 1, 3),
        row(3, 3, b"3pp", 0, 0, 1, 3),
        row(4, 3, b"4pp", 0, 0, 1, 3),
        // an edge of one unit
        row(2, 60, b"111111111111111111111p", 20, 0, 21, 40),
        row(
            1,
            90,
            b"yyyyyyyyyyyyyyyyyyyyyyyyyyyyyyyyyyyyyyyyyp",
            40,
            0,
            41,
            50,
        ),
        // no letter
        row(4, 3, b"xpp", 0, 0, 1, 3),
        row(4, 3, b"yMp", 1, 0, 2, 2),
        row(4, 3, b"yp0p", 2, 1, 1, 1),
        row(4, 3, b"y\npp", 1, 0, 2, 2),
    ] {
        tried(&rt, &trial);
    }
}

/// Stops where a text isn't read as its trial says. A byte that is refused changes nothing.
fn tried(rt: &impl Abort, trial: &Trial) {
    assert!(rt; 1 <= trial.n && trial.n <= 4);
    assert!(rt; trial.letters <= 60_000_000);
    let mut reader = TreeReader::new(trial.n, trial.letters);
    let mut leaves = 0;
    for place in 0..trial.text.len() {
        let before = (reader.depth(), reader.left());
        let step = reader.step(trial.text[place]);
        assert_eq!(rt; step == TreeStep::Bad, place >= trial.refused, "at {place}");
        match step {
            TreeStep::Inner => {}
            TreeStep::Leaf { index, last, .. } => {
                assert_eq!(rt; last, reader.is_whole());
                leaves = index;
            }
            TreeStep::Bad => assert_eq!(rt; (reader.depth(), reader.left()), before),
        }
    }
    assert_eq!(rt;
        (leaves, reader.depth(), reader.left()),
        (trial.leaves, trial.depth, trial.left)
    );
}

#[test]
fn tells_each_cell(rt: HostRuntime) {
    let dilute = Cell {
        lo: [0; 3],
        hi: [WHOLE / 2, 0, 0],
        ylo: 0,
        yhi: ONE / 2,
    };
    let dense = Cell {
        lo: [0; 3],
        hi: [WHOLE / 2, 0, 0],
        ylo: ONE / 2,
        yhi: ONE,
    };
    let rich = Cell {
        lo: [WHOLE / 2, 0, 0],
        hi: [WHOLE, 0, 0],
        ylo: 0,
        yhi: ONE,
    };
    let mut reader = TreeReader::new(2, 5);
    for (letter, step, depth, left) in [
        (b'1', TreeStep::Inner, 2, 4),
        (b'y', TreeStep::Inner, 3, 3),
        (b'p', leaf(dilute, LeafHow::Plain, 1, false), 2, 2),
        (b's', leaf(dense, LeafHow::Sloped, 2, false), 1, 1),
        (b'm', leaf(rich, LeafHow::Misses, 3, true), 0, 0),
    ] {
        assert_eq!(rt; reader.step(letter), step);
        assert_eq!(rt; (reader.depth(), reader.left()), (depth, left));
    }
}

fn leaf(cell: Cell, how: LeafHow, index: u32, last: bool) -> TreeStep {
    TreeStep::Leaf {
        cell,
        how,
        index,
        last,
    }
}
