// The names of the variables, in chains: adding one, and finding one.
// A bucket's first entry is the variable added last whose name has that bucket, a variable's next entry the one before it there.
// An entry is a variable's number plus 1, and 0 is none. Word i holds variable i and the first entry of bucket i.
ghost use Rattle.std.specs.Prelude.{◌≡◌, ◌≤◌, ◌<◌, length, drop};
ghost use Rattle.edition.specs.Edition.{max_variables, max_name_bytes, max_width};
ghost use Rattle.constraint.specs.File.{variable_named};
ghost use Rattle.store.specs.Hash.{hash_of, bucket_of};
ghost use Rattle.store.specs.Names.{Searchable, with_name};
ghost use Rattle.store.specs.Tables.{length_unit, variables_in};

use super::hashing::bucket;
use super::variables::{
    first_entry, name_length, name_start, next_entry, with_first_entry, with_word_of,
};
use edition::Edition;
use text::compare::same_at;

// Puts variable n into the table: the name of `len` bytes at `start`, which have that hash, and the width.
pub fn add(
    variables: &mut [u64; Edition::VARIABLES],
    n: usize,
    start: usize,
    len: usize,
    width: u64,
    hash: u32,
)
    requires { (length variables.old ≡ max_variables) × (n < max_variables) × (start < length_unit) × (len ≤ max_name_bytes) × (width ≤ max_width) }
    ensures { variables.new ≡ with_name variables.old n start len width (bucket_of hash) }
{
    let b = bucket(hash);
    let first = first_entry(variables[b]);
    variables[n] = with_word_of(variables[n], start, len, width, first);
    variables[b] = with_first_entry(variables[b], n + 1);
}

// Which of the n variables has the name that stands from `at` to the end of the text and has that hash.
pub fn find(
    file: &[u8],
    variables: &[u64; Edition::VARIABLES],
    n: usize,
    text: &[u8],
    at: usize,
    hash: u32,
) -> Option<usize>
    requires { (at ≤ length text.now) × (n ≤ max_variables) × Searchable file.now variables.now n × (hash ≡ hash_of (drop at text.now)) }
    ensures { result ≡ variable_named (drop at text.now) (variables_in file.now variables.now n) }
{
    let b = bucket(hash);
    let mut entry = first_entry(variables[b]);
    while 0 < entry {
        let v = entry - 1;
        let word = variables[v];
        if same_at(file, name_start(word), name_length(word), text, at) {
            return Some(v);
        }
        entry = next_entry(word);
    }
    None
}
