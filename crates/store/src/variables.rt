// The table of variables: a word to each. No other module knows what the word is made of.
ghost use Rattle.std.specs.Prelude.{◌≡◌, List, ℕ, ◌≤◌, ◌<◌};
ghost use Rattle.edition.specs.Edition.{max_variables, max_name_bytes, max_width};
ghost use Rattle.constraint.specs.File.{width_at};
ghost use Rattle.store.specs.Tables.{length_unit, entry_bound, name_start, name_length, word_width, next_entry, first_entry, with_word_of, with_first_entry, variables_in};

use super::lines::VARIABLE_MARK;
use edition::Edition;

// The units in which a word counts the length of the name, the width and its two entries, beside where the name starts.
const LENGTH_UNIT: u64 = 65536;

const WIDTH_UNIT: u64 = 16777216;

const NEXT_UNIT: u64 = 4294967296;

const FIRST_UNIT: u64 = 281474976710656;

// Above every entry.
const ENTRY_BOUND: u64 = 65536;

// A word with another variable. The first entry, of the bucket with the word's number, stays.
pub(crate) fn with_word_of(word: u64, start: usize, len: usize, width: u64, next: usize) -> u64
    requires { (start < length_unit) × (len ≤ max_name_bytes) × (width ≤ max_width) × (next < entry_bound) }
    ensures { result ≡ with_word_of word start len width next }
{
    let name = start as u64 + len as u64 * LENGTH_UNIT;
    let entry = next as u64 * NEXT_UNIT;
    word / FIRST_UNIT * FIRST_UNIT + (name + width * WIDTH_UNIT + entry)
}

// A word with another first entry. The variable stays.
pub(crate) fn with_first_entry(word: u64, entry: usize) -> u64
    requires { entry < entry_bound }
    ensures { result ≡ with_first_entry word entry }
{
    word % FIRST_UNIT + entry as u64 * FIRST_UNIT
}

pub(crate) fn next_entry(word: u64) -> usize
    ensures { result ≡ next_entry word }
{
    (word / NEXT_UNIT % ENTRY_BOUND) as usize
}

pub(crate) fn first_entry(word: u64) -> usize
    ensures { (result ≡ first_entry word) × (result < entry_bound) }
{
    (word / FIRST_UNIT) as usize
}

pub fn name_start(word: u64) -> usize
    ensures { result ≡ name_start word }
{
    (word % LENGTH_UNIT) as usize
}

pub fn name_length(word: u64) -> usize
    ensures { result ≡ name_length word }
{
    (word % WIDTH_UNIT / LENGTH_UNIT) as usize
}

pub fn word_width(word: u64) -> u64
    ensures { result ≡ word_width word }
{
    word / WIDTH_UNIT % VARIABLE_MARK as u64
}

// The width of variable i of n, or 0.
pub fn width_of(variables: &[u64; Edition::VARIABLES], n: usize, i: usize) -> u64
    requires { n ≤ max_variables }
    ensures { (file : List ℕ) → result ≡ width_at (variables_in file variables.now n) i }
{
    if i < n { word_width(variables[i]) } else { 0 }
}
