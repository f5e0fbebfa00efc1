// Bytes, lines, tokens, names and numbers: what constraint files and answers share.
// A piece of text is a prefix of its file and a start, so that places are places of the file.
#![tactic(auto)]

pub mod claims;
pub mod compare;
pub mod numbers;
pub mod scan;

// A class of bytes.
#[derive(Clone, Copy)]
pub enum Class {
    // Any byte but this one.
    Until(u8),
    Space,
    // Any byte but white space.
    Solid,
    Digit,
    NameByte,
    Printing,
}

// A token: where it starts, and where it stops.
#[derive(Clone, Copy)]
pub struct Span {
    pub start: usize,
    pub stop: usize,
}

// A line: where its content ends, and where the next line starts.
#[derive(Clone, Copy)]
pub struct LineEnd {
    pub stop: usize,
    pub next: usize,
}

// Why a text is no number that a word holds.
#[derive(Clone, Copy, PartialEq, Eq)]
pub enum NumberError {
    TooBig,
    NotANumber,
}

// The number that digits make, and where they stop.
#[derive(Clone, Copy)]
pub struct Digits {
    pub number: Result<u64, NumberError>,
    pub stop: usize,
}

// Why a text is no type: its width is none, or it is not spelt as a type.
#[derive(Clone, Copy, PartialEq, Eq)]
pub enum TypeError {
    NoWidth,
    NoType,
}

// The width of a type, and where the type's token stops.
#[derive(Clone, Copy)]
pub struct TypeFound {
    pub width: Result<u64, TypeError>,
    pub stop: usize,
}
