// The tables that hold a constraint file: its variables and its lines. No other crate knows their layout.
#![tactic(auto)]

use edition::Edition;

pub mod hashing;
pub mod lines;
pub mod names;
pub mod variables;

// A name: where its bytes stop, and their hash.
#[derive(Clone, Copy)]
pub struct Name {
    pub stop: usize,
    pub hash: u32,
}

// As much of a file as is read; its variables and lines stand in the tables.
// The expectation is a byte: a word would leave a gap that is copied with every line.
#[derive(Clone, Copy)]
pub struct Progress {
    pub version: Option<Edition>,
    pub expectation: Option<u8>,
    pub variables: usize,
    pub lines: usize,
}

// What a line adds to the file: variables by how many there are with them.
#[derive(Clone, Copy)]
pub enum Part {
    Nothing,
    Version(Edition),
    Expectation(u8),
    Variables(usize),
    Line,
}
