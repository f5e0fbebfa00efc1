// The report on an answer; its tables are its own.
ghost use Rattle.std.specs.Prelude.{◌≡◌, eqb};
ghost use Rattle.refusal.specs.Lists.{how_many};
ghost use Rattle.judge.specs.Judge.{verdict_byte};
ghost use Rattle.tables.specs.Report.{tally_of, report_outcome};

use super::check::check_lines;
use super::{Report, Tally};
use edition::Edition;
use judge::Verdict;
use refusal::Refusal;

// How many lines have the verdict.
fn count(verdicts: &[u8], verdict: Verdict) -> usize
    ensures { result ≡ how_many (eqb (verdict_byte verdict)) verdicts.now }
{
    let byte = verdict.byte();
    let mut n = 0;
    let mut i = 0;
    while i < verdicts.len() {
        if byte == verdicts[i] {
            n += 1;
        }
        i += 1;
    }
    n
}

fn tally(verdicts: &[u8]) -> Tally
    ensures { result ≡ tally_of verdicts.now }
{
    Tally {
        lines: verdicts.len(),
        held: count(verdicts, Verdict::Holds),
        violated: count(verdicts, Verdict::Violated),
        disregarded: count(verdicts, Verdict::Disregarded),
    }
}

// Reports on an answer to a constraint file, any bytes both.
pub fn report(constraint: &[u8], answer: &[u8]) -> Result<Report, Refusal>
    ensures { result ≡ report_outcome constraint.now answer.now }
{
    let mut values = [0u64; Edition::VARIABLES];
    let mut verdicts = [0u8; Edition::LINES];
    let mut results = [0u64; Edition::LINES];
    let (overall, m) = check_lines(constraint, answer, &mut values, &mut verdicts, &mut results)?;
    Ok(Report {
        overall,
        tally: tally(&verdicts[..m]),
    })
}
