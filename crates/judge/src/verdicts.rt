// The overall verdict of a table.
ghost use Rattle.std.specs.Prelude.{◌≡◌, is_some};
ghost use Rattle.judge.specs.Judge.{verdict_byte, first_verdict, overall_of, overall_number};

use super::{Overall, Verdict};

// Whether there is a verdict v. All are looked at: the compiler makes vector code of a loop that does not stop.
fn has_verdict(verdicts: &[u8], v: u8) -> bool
    ensures { result ≡ is_some (first_verdict v verdicts.now) }
{
    let mut found = false;
    let mut i = 0;
    while i < verdicts.len() {
        found = found | (v == verdicts[i]);
        i += 1;
    }
    found
}

// The line, from 1, that has a verdict first.
fn first_verdict(verdicts: &[u8], verdict: Verdict) -> Option<usize>
    ensures { result ≡ first_verdict (verdict_byte verdict) verdicts.now }
{
    let v = verdict.byte();
    if !has_verdict(verdicts, v) {
        return None;
    }
    let mut i = 0;
    while i < verdicts.len() {
        if v == verdicts[i] {
            return Some(i + 1);
        }
        i += 1;
    }
    None
}

// Disregarded if any line is, else violated if any is, else satisfied.
pub fn overall(verdicts: &[u8]) -> Overall
    ensures { result ≡ overall_of verdicts.now }
{
    if let Some(n) = first_verdict(verdicts, Verdict::Disregarded) {
        return Overall::Disregarded(n);
    }
    if let Some(n) = first_verdict(verdicts, Verdict::Violated) {
        return Overall::Violated(n);
    }
    Overall::Satisfied
}

// The number of an overall verdict.
pub fn overall_number(overall: Overall) -> u8
    ensures { result ≡ overall_number overall }
{
    match overall {
        Overall::Satisfied => 0,
        Overall::Violated(_) => 1,
        Overall::Disregarded(_) => 2,
    }
}
