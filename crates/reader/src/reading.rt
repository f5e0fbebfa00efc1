// Reading a file into tables, line by line.
ghost use Rattle.std.specs.Prelude.{◌≡◌, true, ℕ, ◌<◌, ◌≤◌, length, take, drop, IfOk};
ghost use Rattle.edition.specs.Edition.{max_file_bytes};
ghost use Rattle.refusal.specs.Lists.{every};
ghost use Rattle.refusal.specs.Result.{accepted_as};
ghost use Rattle.refusal.specs.declared.Subject.TheVariants.{Constraint as TheConstraint};
ghost use Rattle.text.specs.Lines.{text_lines};
ghost use Rattle.text.specs.Reading.{read_any_line, read_lines};
ghost use Rattle.text.specs.Bytes.{is_allowed};
ghost use Rattle.text.specs.Scan.{line_at};
ghost use Rattle.constraint.specs.File.{empty_file};
ghost use Rattle.constraint.specs.Read.{kind_of, read_statement, add_line, read_line, read_file};
ghost use Rattle.store.specs.Names.{Searchable};
ghost use Rattle.store.specs.Tables.{table_heads, table_bodies, store_of, StoreSized};
ghost use Rattle.store.specs.Progress.{nothing_read, stored_file, HeadsInUseFit, InTables, with_part, advanced, added_result, HasRoom};

use constraint::{Form, Kind};
use declaration::declarations::declaration_line;
use declaration::header::{expectation_line, version_line};
use edition::Edition;
use refusal::{Fault, Refusal, Subject};
use statement::operations::statement_line;
use store::lines::{TABLE_BODIES, TABLE_HEADS};
use store::{Part, Progress};
use text::Class;
use text::scan::{all, find_line, leads};

// The kind of the line from `at` to the end.
fn kind_of(line: &[u8], at: usize) -> Kind
    requires { at < length line.now }
    ensures { result ≡ kind_of (drop at line.now) }
{
    if line[at] == b'#' {
        return Kind::Skipped;
    }
    if leads(line, at, b'v') {
        return Kind::OfVersion;
    }
    if leads(line, at, b'e') {
        return Kind::OfExpectation;
    }
    if leads(line, at, b'd') {
        return Kind::OfDeclarations;
    }
    if leads(line, at, b'c') {
        return Kind::OfStatement(Form::WithOutput);
    }
    if leads(line, at, b'p') {
        return Kind::OfStatement(Form::Predicate);
    }
    Kind::OfNoKind
}

// The `c` or `p` line that stops at `stop`, from `at` on, put behind those that are held.
fn read_statement(
    file: &[u8],
    stop: usize,
    at: usize,
    form: Form,
    variables: &[u64; Edition::VARIABLES],
    heads: &mut [u8; TABLE_HEADS],
    bodies: &mut [u64; TABLE_BODIES],
    p: Progress,
) -> Result<Part, Refusal>
    requires { (at < stop) × (stop ≤ length file.now) × InTables p × (length heads.old ≡ table_heads) × (length bodies.old ≡ table_bodies) × Searchable file.now variables.now p.variables }
    ensures { ((next : ℕ) → added_result file.now (store_of variables.now heads.new bodies.new) p result ≡ add_line (stored_file file.now (store_of variables.now heads.old bodies.old) p) (read_statement form (stored_file file.now (store_of variables.now heads.old bodies.old) p) (line_at (take stop file.now) at next))) × (length heads.new ≡ table_heads) × (length bodies.new ≡ table_bodies) × IfOk result (HasRoom p) × (HeadsInUseFit file.now (store_of variables.now heads.old bodies.old) p → IfOk (advanced p result) (HeadsInUseFit file.now (store_of variables.now heads.new bodies.new))) × IfOk (advanced p result) (λ q. Searchable file.now variables.now q.variables) }
{
    let n = p.variables;
    let m = p.lines;
    let line = &file[..stop];
    statement_line(file, variables, n, line, at, form, heads, bodies, m)?;
    Ok(Part::Line)
}

// Reads the line that stops at `stop`, from `at` on; it is not blank.
fn read_line(
    file: &[u8],
    stop: usize,
    at: usize,
    variables: &mut [u64; Edition::VARIABLES],
    heads: &mut [u8; TABLE_HEADS],
    bodies: &mut [u64; TABLE_BODIES],
    p: Progress,
) -> Result<Part, Refusal>
    requires { (at < stop) × (stop ≤ length file.now) × (length file.now ≤ max_file_bytes) × InTables p × StoreSized (store_of variables.old heads.old bodies.old) × Searchable file.now variables.old p.variables }
    ensures { ((next : ℕ) → added_result file.now (store_of variables.new heads.new bodies.new) p result ≡ read_line (stored_file file.now (store_of variables.old heads.old bodies.old) p) (line_at (take stop file.now) at next)) × StoreSized (store_of variables.new heads.new bodies.new) × IfOk (advanced p result) (λ q. Searchable file.now variables.new q.variables) × IfOk result (HasRoom p) × (HeadsInUseFit file.now (store_of variables.old heads.old bodies.old) p → IfOk (advanced p result) (HeadsInUseFit file.now (store_of variables.new heads.new bodies.new))) }
{
    match kind_of(&file[..stop], at) {
        Kind::Skipped => Ok(Part::Nothing),
        Kind::OfVersion => version_line(&file[..stop], at, p),
        Kind::OfExpectation => expectation_line(&file[..stop], at, p),
        Kind::OfDeclarations => declaration_line(file, stop, at, variables, p),
        Kind::OfStatement(form) => {
            read_statement(file, stop, at, form, variables, heads, bodies, p)
        }
        Kind::OfNoKind => Err(Refusal::of(Subject::Constraint, Fault::UnknownLine, at)),
    }
}

// Reads any line whose bytes are allowed: a blank line is passed over.
fn read_any_line(
    file: &[u8],
    stop: usize,
    at: usize,
    variables: &mut [u64; Edition::VARIABLES],
    heads: &mut [u8; TABLE_HEADS],
    bodies: &mut [u64; TABLE_BODIES],
    p: Progress,
) -> Result<Part, Refusal>
    requires { (at ≤ stop) × (stop ≤ length file.now) × (length file.now ≤ max_file_bytes) × InTables p × StoreSized (store_of variables.old heads.old bodies.old) × Searchable file.now variables.old p.variables × (every is_allowed (drop at (take stop file.now)) ≡ true) }
    ensures { ((next : ℕ) → added_result file.now (store_of variables.new heads.new bodies.new) p result ≡ read_any_line TheConstraint read_line (stored_file file.now (store_of variables.old heads.old bodies.old) p) (line_at (take stop file.now) at next)) × StoreSized (store_of variables.new heads.new bodies.new) × IfOk (advanced p result) (λ q. Searchable file.now variables.new q.variables) × IfOk result (HasRoom p) × (HeadsInUseFit file.now (store_of variables.old heads.old bodies.old) p → IfOk (advanced p result) (HeadsInUseFit file.now (store_of variables.new heads.new bodies.new))) }
{
    if all(&file[..stop], at, Class::Space) {
        return Ok(Part::Nothing);
    }
    read_line(file, stop, at, variables, heads, bodies, p)
}

// Nothing read yet.
fn nothing() -> Progress
    ensures { result ≡ nothing_read }
{
    Progress {
        version: None,
        expectation: None,
        variables: 0,
        lines: 0,
    }
}

// The progress from p on by what a line adds.
fn advance(p: Progress, part: Part) -> Progress
    requires { HasRoom p part }
    ensures { result ≡ with_part p part }
{
    match part {
        Part::Nothing => p,
        Part::Version(e) => Progress {
            version: Some(e),
            ..p
        },
        Part::Expectation(n) => Progress {
            expectation: Some(n),
            ..p
        },
        Part::Variables(n) => Progress { variables: n, ..p },
        Part::Line => Progress {
            lines: p.lines + 1,
            ..p
        },
    }
}

// Reads all lines.
fn read_lines(
    file: &[u8],
    variables: &mut [u64; Edition::VARIABLES],
    heads: &mut [u8; TABLE_HEADS],
    bodies: &mut [u64; TABLE_BODIES],
) -> Result<Progress, Refusal>
    requires { (length file.now ≤ max_file_bytes) × StoreSized (store_of variables.old heads.old bodies.old) × Searchable file.now variables.old 0 }
    ensures { (accepted_as (stored_file file.now (store_of variables.new heads.new bodies.new)) result ≡ read_lines TheConstraint read_line empty_file (text_lines file.now)) × StoreSized (store_of variables.new heads.new bodies.new) × IfOk result (λ p. Searchable file.now variables.new p.variables) × IfOk result InTables × IfOk result (HeadsInUseFit file.now (store_of variables.new heads.new bodies.new)) }
{
    let mut p = nothing();
    let mut i = 0;
    while i < file.len() {
        let refuse = |bad| Refusal::of(Subject::Constraint, Fault::ByteNotAllowed, bad);
        let line = find_line(file, i).map_err(refuse)?;
        let part = read_any_line(file, line.stop, i, variables, heads, bodies, p)?;
        p = advance(p, part);
        i = line.next;
    }
    Ok(p)
}

// Reads a file into tables. The table of variables holds none yet: its words are 0.
pub fn read(
    file: &[u8],
    variables: &mut [u64; Edition::VARIABLES],
    heads: &mut [u8; TABLE_HEADS],
    bodies: &mut [u64; TABLE_BODIES],
) -> Result<Progress, Refusal>
    requires { StoreSized (store_of variables.old heads.old bodies.old) × Searchable file.now variables.old 0 }
    ensures { (accepted_as (stored_file file.now (store_of variables.new heads.new bodies.new)) result ≡ read_file file.now) × StoreSized (store_of variables.new heads.new bodies.new) × IfOk result InTables × IfOk result (HeadsInUseFit file.now (store_of variables.new heads.new bodies.new)) × IfOk result (λ p. Searchable file.now variables.new p.variables) }
{
    if Edition::FILE_BYTES < file.len() {
        return Err(Refusal::of(Subject::Constraint, Fault::FileTooLong, Edition::FILE_BYTES));
    }
    let p = read_lines(file, variables, heads, bodies)?;
    if p.version.is_none() {
        return Err(Refusal::of(Subject::Constraint, Fault::MisplacedLine, file.len()));
    }
    Ok(p)
}
