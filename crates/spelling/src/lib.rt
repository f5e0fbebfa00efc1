// The operators' spellings. Reading and writing both go by one table.
#![tactic(auto)]

ghost use Rattle.std.specs.Prelude.{◌≡◌, ◌+◌, ◌≤◌, ◌<◌, [], map, length, drop, slice_index_or};
ghost use Rattle.edition.specs.declared.Edition.{Edition};
ghost use Rattle.spelling.specs.Internal.{longest, keys, key_of, FindByKeys};
ghost use Rattle.spelling.specs.Operators.{operator_named, spelling_of, is_reserved};

use arithmetic::numbering::operator_number;
use arithmetic::{Arithmetic, Bitwise, Comparison, Division, Extension, Operator, Shift};
use text::compare::is_word;

pub mod claims;

// The operators with their spellings, in the order of their numbers.
const SPELLINGS: [(&'static [u8], Operator); 31] = [
    (b"&", Operator::Combine(Bitwise::And)),
    (b"|", Operator::Combine(Bitwise::Or)),
    (b"^", Operator::Combine(Bitwise::Xor)),
    (b"~", Operator::Not),
    (b"=>", Operator::Implies),
    (b"=", Operator::Compare(Comparison::Equal)),
    (b"/=", Operator::Compare(Comparison::NotEqual)),
    (b"ule", Operator::Compare(Comparison::Ule)),
    (b"uge", Operator::Compare(Comparison::Uge)),
    (b"ult", Operator::Compare(Comparison::Ult)),
    (b"ugt", Operator::Compare(Comparison::Ugt)),
    (b"sle", Operator::Compare(Comparison::Sle)),
    (b"sge", Operator::Compare(Comparison::Sge)),
    (b"slt", Operator::Compare(Comparison::Slt)),
    (b"sgt", Operator::Compare(Comparison::Sgt)),
    (b"ite", Operator::Ite),
    (b"+", Operator::Compute(Arithmetic::Add)),
    (b"-", Operator::Compute(Arithmetic::Sub)),
    (b"*", Operator::Compute(Arithmetic::Mul)),
    (b"/u", Operator::Divide(Division::Udiv)),
    (b"/s", Operator::Divide(Division::Sdiv)),
    (b"%u", Operator::Divide(Division::Urem)),
    (b"%s", Operator::Divide(Division::Srem)),
    (b"<<", Operator::Move(Shift::Shl)),
    (b">>a", Operator::Move(Shift::Ashr)),
    (b">>l", Operator::Move(Shift::Lshr)),
    (b"trun", Operator::Trun),
    (b"sext", Operator::Extend(Extension::Sext)),
    (b"zext", Operator::Extend(Extension::Zext)),
    (b"conc", Operator::Conc),
    (b"extr", Operator::Extr),
];

// The bytes of the longest spelling.
const LONGEST: usize = 4;

// How many keys there are.
const KEYS: usize = 128;

// For each key the number of the operator whose spelling has it; where none has it, any operator's number serves.
const NUMBERS: [u8; KEYS] = [
    25, 0, 3, 0, 0, 0, 18, 0, 0, 16, 0, 0, 0, 0, 0, 17, 0, 0, 0, 0, 0, 0, 0, 0, 0, 0, 0, 22, 0, 0,
    0, 21, 0, 0, 2, 0, 0, 20, 0, 0, 0, 19, 0, 0, 0, 0, 0, 0, 0, 0, 0, 0, 0, 0, 0, 0, 0, 6, 0, 0, 0,
    0, 0, 5, 0, 0, 0, 0, 23, 0, 0, 0, 0, 4, 0, 0, 0, 0, 0, 0, 0, 0, 0, 0, 0, 29, 0, 12, 0, 8, 15,
    0, 11, 0, 7, 0, 0, 0, 0, 0, 0, 0, 14, 0, 10, 0, 0, 13, 27, 9, 0, 30, 0, 0, 0, 28, 26, 24, 0, 0,
    0, 0, 0, 0, 1, 0, 0, 0,
];

// What the length is multiplied by in a key.
const LENGTH_FACTOR: usize = 8;

// The key of a text: its first, second and last byte and 8 times its length, added up modulo 128; in a text of one byte that byte is all three.
// No two spellings have the same key.
fn key_of(word: &[u8]) -> usize
    requires { (1 ≤ length word.now) × (length word.now ≤ longest) }
    ensures { (result ≡ key_of word.now) × (result < keys) }
{
    let last = word.len() - 1;
    let second = last.min(1);
    let sum = word[0] as usize + word[second] as usize + word[last] as usize;
    (sum + word.len() * LENGTH_FACTOR) % KEYS
}

// The operator that the bytes from `at` to the end spell, by tables in which each spelling is found by its key: no other is compared.
fn spelt_by_key(
    numbers: &[u8],
    table: &[(&'static [u8], Operator)],
    text: &[u8],
    at: usize,
) -> Option<Operator>
    requires { (at < length text.now) × (length text.now ≤ at + longest) × FindByKeys numbers.now (map (λ x. (x.0.now, x.1)) table.now) }
    ensures { (e : Edition) → result ≡ operator_named e (drop at text.now) }
{
    let number = numbers[key_of(&text[at..])] as usize;
    let (word, op) = &table[number];
    if is_word(text, at, word) {
        Some(*op)
    } else {
        None
    }
}

// The operator that the bytes from `at` to the end spell.
pub fn operator_at(text: &[u8], at: usize) -> Option<Operator>
    requires { at ≤ length text.now }
    ensures { (e : Edition) → result ≡ operator_named e (drop at text.now) }
{
    let len = text.len() - at;
    if len == 0 || LONGEST < len {
        return None;
    }
    spelt_by_key(&NUMBERS, &SPELLINGS, text, at)
}

// The spelling at a place of a table.
fn spelling_at(table: &[(&'static [u8], Operator)], i: usize) -> &'static [u8]
    requires { i < length table.now }
    ensures { result.now ≡ slice_index_or (map (λ x. x.0.now) table.now) i [] }
{
    table[i].0
}

// The spelling of an operator.
pub fn symbol_of(op: Operator) -> &'static [u8]
    ensures { (e : Edition) → result.now ≡ spelling_of e op }
{
    spelling_at(&SPELLINGS, operator_number(op) as usize)
}

pub fn is_reserved(text: &[u8], at: usize) -> bool
    requires { at ≤ length text.now }
    ensures { (e : Edition) → result ≡ is_reserved e (drop at text.now) }
{
    operator_at(text, at).is_some()
}
