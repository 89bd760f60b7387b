//! The letters of a certificate's tree, read one at a time.
//!
//! A certificate tells the tree of halvings of a search by one letter for each cell, in preorder and the lower half first: `1`,
//! `2`, `3` halve along a free fraction and `y` along the packing; a leaf is `m` where no composition lies in it, and `p` or `s`
//! where its plain or its slope low clears it. A [`TreeReader`] keeps the cells that have no letter yet, and takes no memory.
//! The laws say that the lines that are read whole are those of the good trees, that letters write one tree alone, and that a
//! line whose leaves pass bounds the energy from below over the whole domain.
#![tactic(auto)]

mod laws;
mod letters;
mod reader;
mod stack;
#[cfg(test)]
mod tests;

pub use laws::{
    letters_count, letters_write_one, lines_are_trees, lines_bound, searches_write_trees,
    trees_are_lines,
};
pub use letters::LeafHow;
pub use reader::{TreeReader, TreeStep};
