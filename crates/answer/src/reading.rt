// Reading an answer into a row of values, line by line.
ghost use Rattle.std.specs.Prelude.{◌≡◌, true, false, cond, ℕ, ◌<◌, ◌≤◌, length, take, drop};
ghost use Rattle.edition.specs.Edition.{max_variables};
ghost use Rattle.refusal.specs.Lists.{every};
ghost use Rattle.refusal.specs.Result.{accepted_as};
ghost use Rattle.refusal.specs.declared.Subject.TheVariants.{Answer};
ghost use Rattle.text.specs.Lines.{text_lines};
ghost use Rattle.text.specs.Reading.{read_any_line, read_lines};
ghost use Rattle.text.specs.Bytes.{is_allowed};
ghost use Rattle.text.specs.Scan.{line_at};
ghost use Rattle.store.specs.Names.{Searchable};
ghost use Rattle.store.specs.Tables.{variables_in};
ghost use Rattle.answer.specs.Read.{settings_of, answer_kind, read_answer_line, all_set, read_answer};

use super::AnswerLine;
use super::settings::value_line;
use super::solutions::solution_line;
use edition::Edition;
use refusal::{Fault, Refusal, Subject};
use text::Class;
use text::scan::{all, find_line, leads};

// The kind of the line from `at` to the end.
fn kind_of(line: &[u8], at: usize) -> AnswerLine
    requires { at ≤ length line.now }
    ensures { result ≡ answer_kind (drop at line.now) }
{
    if leads(line, at, b'c') {
        return AnswerLine::OfComment;
    }
    if leads(line, at, b's') {
        return AnswerLine::OfSolution;
    }
    if leads(line, at, b'v') {
        return AnswerLine::OfValues;
    }
    AnswerLine::OfNoKind
}

// Reads the line from `at` to the end; it is not blank. Answers whether the `s` line is read.
fn read_line(
    file: &[u8],
    variables: &[u64; Edition::VARIABLES],
    n: usize,
    line: &[u8],
    at: usize,
    settings: &mut [Option<u64>; Edition::VARIABLES],
    solved: bool,
) -> Result<bool, Refusal>
    requires { (at < length line.now) × (n ≤ max_variables) × Searchable file.now variables.now n × (length settings.old ≡ max_variables) }
    ensures { ((next : ℕ) → accepted_as (λ s. settings_of s (take n settings.new)) result ≡ read_answer_line (variables_in file.now variables.now n) (settings_of solved (take n settings.old)) (line_at line.now at next)) × (length settings.new ≡ max_variables) }
{
    match kind_of(line, at) {
        AnswerLine::OfComment => Ok(solved),
        AnswerLine::OfSolution => solution_line(line, at, solved),
        AnswerLine::OfValues => value_line(file, variables, n, line, at, settings, solved),
        AnswerLine::OfNoKind => Err(Refusal::of(Subject::Answer, Fault::UnknownLine, at)),
    }
}

// Reads any line whose bytes are allowed: a blank line is passed over.
fn read_any_line(
    file: &[u8],
    variables: &[u64; Edition::VARIABLES],
    n: usize,
    line: &[u8],
    at: usize,
    settings: &mut [Option<u64>; Edition::VARIABLES],
    solved: bool,
) -> Result<bool, Refusal>
    requires { (at ≤ length line.now) × (n ≤ max_variables) × Searchable file.now variables.now n × (length settings.old ≡ max_variables) × (every is_allowed (drop at line.now) ≡ true) }
    ensures { ((next : ℕ) → accepted_as (λ s. settings_of s (take n settings.new)) result ≡ read_any_line Answer (read_answer_line (variables_in file.now variables.now n)) (settings_of solved (take n settings.old)) (line_at line.now at next)) × (length settings.new ≡ max_variables) }
{
    if all(line, at, Class::Space) {
        return Ok(solved);
    }
    read_line(file, variables, n, line, at, settings, solved)
}

// Reads all lines, and answers whether the `s` line is among them.
fn read_lines(
    file: &[u8],
    variables: &[u64; Edition::VARIABLES],
    n: usize,
    answer: &[u8],
    settings: &mut [Option<u64>; Edition::VARIABLES],
) -> Result<bool, Refusal>
    requires { (n ≤ max_variables) × Searchable file.now variables.now n × (length settings.old ≡ max_variables) }
    ensures { (accepted_as (λ s. settings_of s (take n settings.new)) result ≡ read_lines Answer (read_answer_line (variables_in file.now variables.now n)) (settings_of false (take n settings.old)) (text_lines answer.now)) × (length settings.new ≡ max_variables) }
{
    let mut solved = false;
    let mut i = 0;
    while i < answer.len() {
        let line = find_line(answer, i).map_err(|bad| Refusal::of(
            Subject::Answer,
            Fault::ByteNotAllowed,
            bad,
        ))?;
        let cut = &answer[..line.stop];
        solved = read_any_line(file, variables, n, cut, i, settings, solved)?;
        i = line.next;
    }
    Ok(solved)
}

// Puts the values of the first n variables into the row, and answers whether all are set.
fn all_set(
    settings: &[Option<u64>; Edition::VARIABLES],
    n: usize,
    row: &mut [u64; Edition::VARIABLES],
) -> bool
    requires { (n ≤ max_variables) × (length settings.now ≡ max_variables) × (length row.old ≡ max_variables) }
    ensures { (all_set (take n settings.now) ≡ cond result (Some (take n row.new)) None) × (length row.new ≡ max_variables) }
{
    let mut i = 0;
    while i < n {
        let Some(v) = settings[i] else {
            return false;
        };
        row[i] = v;
        i += 1;
    }
    true
}

// Reads an answer to the n variables of a file into a row; what is behind the first n values of the row is left open.
pub fn read_answer(
    file: &[u8],
    variables: &[u64; Edition::VARIABLES],
    n: usize,
    answer: &[u8],
    row: &mut [u64; Edition::VARIABLES],
) -> Result<(), Refusal>
    requires { (n ≤ max_variables) × Searchable file.now variables.now n × (length row.old ≡ max_variables) }
    ensures { (accepted_as (λ done. take n row.new) result ≡ read_answer (variables_in file.now variables.now n) answer.now) × (length row.new ≡ max_variables) }
{
    if Edition::FILE_BYTES < answer.len() {
        return Err(Refusal::of(Subject::Answer, Fault::FileTooLong, Edition::FILE_BYTES));
    }
    let mut settings = [None; Edition::VARIABLES];
    let solved = read_lines(file, variables, n, answer, &mut settings)?;
    if !solved {
        return Err(Refusal::of(Subject::Answer, Fault::MisplacedLine, answer.len()));
    }
    if !all_set(&settings, n, row) {
        return Err(Refusal::of(Subject::Answer, Fault::NotSet, answer.len()));
    }
    Ok(())
}
