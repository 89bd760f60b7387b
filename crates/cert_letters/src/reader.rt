//! The letters of a tree, read one at a time.

ghost use Rattle.std.specs.Prelude.{◌≡◌, ◌≤◌, length};
ghost use Rattle.cert_letters.specs.Readings.{fresh, is_whole, next, told, answer_of};

use crate::letters::{LeafHow, Letter, is_wide, letter_of};
use crate::stack::Stack;
use case_types::Cell;
use density_boxes::root;
use std::marker::Model;

/// What a letter is.
#[derive(Clone, Copy, Debug, PartialEq, Eq)]
pub enum TreeStep {
    /// The next cell is halved.
    Inner,
    /// The next cell is a leaf.
    Leaf {
        /// The cell.
        cell: Cell,
        /// What stands on it.
        how: LeafHow,
        /// Its number among all leaves, from 1 in the order of the letters.
        index: u32,
        /// Whether the tree is whole with it and the stated number of letters used up.
        last: bool,
    },
    /// No letter of the tree can be this one, nor can any after it.
    Bad,
}

/// Reads the letters of a tree, in preorder and the lower half first.
#[derive(Drop)]
pub struct TreeReader {
    n: u8,
    stack: Stack,
    left: u32,
    leaves: u32,
    failed: bool,
}

impl Model for TreeReader {
    ghost use Rattle.std.specs.Prelude.{◌≤◌, ◌+◌};
    ghost use Rattle.cert_letters.specs.Depth.{IsDeep};
    ghost use Rattle.cert_letters.specs.Readings.{Reading};

    ghost Value = { Reading };

    ghost view = { λ s. record { count = s.n; cells = s.stack; left = s.left; leaves = s.leaves; failed = s.failed } };

    ghost invariant = { λ s. (1 ≤ s.n) × (s.n ≤ 4) × (s.leaves + s.left ≤ 60000000) × IsDeep s.stack };
}

impl TreeReader {
    /// Before the first of so many letters of a tree of `n` components.
    pub fn new(n: u8, letters: u32) -> TreeReader
        requires one { 1 ≤ n }
        requires four { n ≤ 4 }
        requires few { letters ≤ 60000000 }
        ensures { result ≡ fresh n letters }
    {
        let whole = root(n);
        TreeReader {
            n,
            stack: Stack::new(whole),
            left: letters,
            leaves: 0,
            failed: false,
        }
    }

    /// How many cells have no letter yet.
    pub fn depth(&self) -> u32
        ensures depth { result ≡ length self.now.cells }
        ensures bounded { result ≤ 101 }
    {
        self.stack.len() as u32
    }

    /// How many letters are left by the stated number.
    pub fn left(&self) -> u32
        ensures value { result ≡ self.now.left }
        ensures few { result ≤ 60000000 }
    {
        self.left
    }

    /// Whether the tree is whole and the stated number of letters used up.
    pub fn is_whole(&self) -> bool
        ensures { result ≡ is_whole self.now }
    {
        self.left == 0 && self.stack.is_empty()
    }

    /// Takes the next letter.
    ///
    /// It is refused where the stated number of letters is used up or the tree is whole, where it is no letter of a tree or
    /// names no edge of the components, and where the edge has one unit. After one that is refused every later one is, and
    /// nothing else changes.
    #[tactic(auto, unfolding(crate::specs::Readings::next, crate::specs::Readings::told, crate::specs::Readings::visit_of))]
    pub fn step(&mut self, letter: u8) -> TreeStep
        ensures next { self.new ≡ next self.old letter }
        ensures answer { answer_of result ≡ told self.old letter }
    {
        if self.failed || self.left == 0 {
            self.failed = true;
            return TreeStep::Bad;
        }
        let Some(letter) = letter_of(self.n, letter) else {
            self.failed = true;
            return TreeStep::Bad;
        };
        let Some(cell) = self.stack.pop() else {
            self.failed = true;
            return TreeStep::Bad;
        };
        match letter {
            Letter::Leaf(how) => {
                self.left -= 1;
                self.leaves += 1;
                TreeStep::Leaf {
                    cell,
                    how,
                    index: self.leaves,
                    last: self.left == 0 && self.stack.is_empty(),
                }
            }
            Letter::Edge(edge) => {
                if !is_wide(&cell, edge) {
                    self.stack.put_back(cell);
                    self.failed = true;
                    return TreeStep::Bad;
                }
                self.left -= 1;
                self.stack.push_halves(&cell, edge);
                TreeStep::Inner
            }
        }
    }
}
