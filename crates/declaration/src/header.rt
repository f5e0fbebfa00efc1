// The `v` and `e` lines.
ghost use Rattle.std.specs.Prelude.{◌≡◌, List, ℕ, ◌<◌, ◌≤◌, length, take, drop, Option, IfOk};
ghost use Rattle.edition.specs.Edition.{edition_numbered};
ghost use Rattle.refusal.specs.Result.{accepted_as};
ghost use Rattle.constraint.specs.File.{File};
ghost use Rattle.constraint.specs.Read.{read_single, version_of, read_version, expectation_of, read_expectation};
ghost use Rattle.store.specs.Tables.{Store};
ghost use Rattle.store.specs.Progress.{stored_file, added_result, AddsHeader};
ghost use Rattle.text.specs.Scan.{line_at};

use edition::Edition;
use refusal::{Fault, Refusal, Subject};
use store::{Part, Progress};
use text::Class;
use text::compare::is_word;
use text::numbers::{number_at, number_behind};
use text::scan::{next_token, no_more_tokens, scan};

// The digits of a version's number, at most.
const MAX_VERSION_DIGITS: usize = 4;

// The edition of a version's two numbers.
fn edition_numbered(major: u64, minor: u64) -> Option<Edition>
    ensures { result ≡ edition_numbered major minor }
{
    let e = Edition::v1_0();
    if (major == e.major) & (minor == e.minor) {
        Some(e)
    } else {
        None
    }
}

// The edition of the version token from `at` to the end.
fn version_at(text: &[u8], at: usize) -> Option<Edition>
    requires { at ≤ length text.now }
    ensures { result ≡ version_of (drop at text.now) }
{
    let dot = scan(text, at, Class::Until(b'.'));
    let major = number_at(&text[..dot], at, MAX_VERSION_DIGITS).ok()?;
    let minor = number_behind(text, dot, MAX_VERSION_DIGITS).ok()?;
    edition_numbered(major, minor)
}

fn expectation_at(text: &[u8], at: usize) -> Option<u8>
    requires { at ≤ length text.now }
    ensures { result ≡ expectation_of (drop at text.now) }
{
    if is_word(text, at, b"0") {
        return Some(0);
    }
    if is_word(text, at, b"1") {
        return Some(1);
    }
    None
}

// The line from `at` to the end, which has one token, where such a line is allowed: `parse` says what the token means.
fn read_single<A: Copy, F: Fn(&[u8], usize) -> Option<A>>(
    text: &[u8],
    at: usize,
    allowed: bool,
    parse: F,
    wrong: Fault,
) -> Result<A, Refusal>
    ghost meaning: { List ℕ → Option A }
    requires within { at < length text.now }
    requires callable { (s : _) (i stop : ℕ) → s.now ≡ take stop text.now → i ≤ length s.now → F.pre parse s i }
    requires parses { (s : _) (i stop : ℕ) (r : Option A) → s.now ≡ take stop text.now → i ≤ length s.now → F.post parse s i r → r ≡ meaning (drop i s.now) }
    ensures { (add : A → File) (next : ℕ) → accepted_as add result ≡ read_single allowed meaning wrong add (line_at text.now at next) }
{
    if !allowed {
        return Err(Refusal::of(Subject::Constraint, Fault::MisplacedLine, at));
    }
    let next = at + 1;
    let Some(token) = next_token(text, next) else {
        return Err(Refusal::of(Subject::Constraint, Fault::TokenCount, text.len()));
    };
    let start = token.start;
    let stop = token.stop;
    let Some(a) = parse(&text[..stop], start) else {
        return Err(Refusal::of(Subject::Constraint, wrong, start));
    };
    no_more_tokens(Subject::Constraint, text, stop)?;
    Ok(a)
}

// The `v` line from `at` to the end.
pub fn version_line(text: &[u8], at: usize, p: Progress) -> Result<Part, Refusal>
    requires { at < length text.now }
    ensures { ((bytes : List ℕ) (t : Store) (next : ℕ) → added_result bytes t p result ≡ read_version (stored_file bytes t p) (line_at text.now at next)) × IfOk result AddsHeader }
{
    let allowed = (p.lines == 0) & p.version.is_none();
    let e = read_single(text, at, allowed, version_at, Fault::WrongVersion)?;
    Ok(Part::Version(e))
}

// The `e` line from `at` to the end.
pub fn expectation_line(text: &[u8], at: usize, p: Progress) -> Result<Part, Refusal>
    requires { at < length text.now }
    ensures { ((bytes : List ℕ) (t : Store) (next : ℕ) → added_result bytes t p result ≡ read_expectation (stored_file bytes t p) (line_at text.now at next)) × IfOk result AddsHeader }
{
    let allowed = (p.lines == 0) & p.expectation.is_none();
    let n = read_single(text, at, allowed, expectation_at, Fault::WrongExpectation)?;
    Ok(Part::Expectation(n))
}
