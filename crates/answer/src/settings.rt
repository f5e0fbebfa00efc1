// The `v` lines.
ghost use Rattle.std.specs.Prelude.{◌≡◌, true, ℕ, ◌<◌, ◌≤◌, length, take, drop, IfOk};
ghost use Rattle.edition.specs.Edition.{max_variables};
ghost use Rattle.refusal.specs.Result.{refused_as, accepted_as};
ghost use Rattle.text.specs.Lines.{tokens_from};
ghost use Rattle.text.specs.Bytes.{front_of};
ghost use Rattle.text.specs.declared.Class.TheVariants.{Solid};
ghost use Rattle.text.specs.declared.NumberError.TheVariants.{NotANumber};
ghost use Rattle.text.specs.Scan.{is_of, past, token_from, line_at};
ghost use Rattle.store.specs.Hash.{hash_of};
ghost use Rattle.store.specs.Names.{Searchable};
ghost use Rattle.store.specs.Tables.{variables_in};
ghost use Rattle.answer.specs.Read.{in_answer, settings_of, setting_of, read_settings, read_values};
ghost use Rattle.answer.specs.Internal.{number_behind_equals, setting_named, SettingIn};

use super::Setting;
use arithmetic::Word;
use arithmetic::rules::fits;
use edition::Edition;
use refusal::{Fault, Refusal, Subject};
use store::hashing::name_at;
use store::names::find;
use store::variables::width_of;
use text::numbers::{MAX_DIGITS, digits_at, within_digits};
use text::scan::{is_letter, spaces, token_ends};
use text::{Digits, NumberError};

// No value from `at` on.
fn no_value(at: usize) -> Digits
    ensures { result.number ≡ Err NotANumber }
{
    Digits {
        number: Err(NumberError::NotANumber),
        stop: at,
    }
}

// The equals sign and the number from `at` to the end of the token; where they are not there, it is left open where the token stops.
fn value_at(line: &[u8], at: usize) -> Digits
    requires { at ≤ length line.now }
    ensures { (result.number ≡ number_behind_equals (front_of (is_of Solid) (drop at line.now))) × IfOk result.number (λ v. result.stop ≡ past (is_of Solid) line.now at) }
{
    if at == line.len() {
        return no_value(at);
    }
    if line[at] != b'=' {
        return no_value(at);
    }
    let next = at + 1;
    let digits = digits_at(line, next);
    let stop = digits.stop;
    let number = digits.number;
    if token_ends(line, stop) {
        Digits {
            number: within_digits(number, stop - next, MAX_DIGITS),
            stop,
        }
    } else {
        no_value(at)
    }
}

// The setting of the variable that is named from `at` to the end of the text, with that hash, to the value v by a token that stops at `stop`.
fn setting_of(
    file: &[u8],
    variables: &[u64; Edition::VARIABLES],
    n: usize,
    text: &[u8],
    at: usize,
    hash: u32,
    v: u64,
    stop: usize,
) -> Result<Setting, Fault>
    requires { (at ≤ length text.now) × (n ≤ max_variables) × Searchable file.now variables.now n × (hash ≡ hash_of (drop at text.now)) }
    ensures { (result ≡ setting_named (variables_in file.now variables.now n) (drop at text.now) stop v) × SettingIn n stop result }
{
    if Edition::NAME_BYTES < text.len() - at {
        return Err(Fault::OverLimit);
    }
    let Some(i) = find(file, variables, n, text, at, hash) else {
        return Err(Fault::NotDeclared);
    };
    if !fits(Word {
        width: width_of(variables, n, i),
        value: v,
    }) {
        return Err(Fault::ValueDoesNotFit);
    }
    Ok(Setting {
        variable: i,
        value: v,
        stop,
    })
}

// The setting whose token starts at `at`.
fn setting(
    file: &[u8],
    variables: &[u64; Edition::VARIABLES],
    n: usize,
    line: &[u8],
    at: usize,
) -> Result<Setting, Fault>
    requires { (at < length line.now) × (n ≤ max_variables) × Searchable file.now variables.now n }
    ensures { (refused_as (in_answer (token_from line.now at)) (accepted_as (λ s. (s.variable, s.value)) result) ≡ setting_of (variables_in file.now variables.now n) (token_from line.now at)) × SettingIn n (past (is_of Solid) line.now at) result }
{
    if !is_letter(line[at]) {
        return Err(Fault::Misspelt);
    }
    let name = name_at(line, at);
    let equals = name.stop;
    let value = value_at(line, equals);
    match value.number {
        Err(NumberError::NotANumber) => Err(Fault::Misspelt),
        Err(NumberError::TooBig) => Err(Fault::NumberTooLarge),
        Ok(v) => {
            let text = &line[..equals];
            setting_of(file, variables, n, text, at, name.hash, v, value.stop)
        }
    }
}

// Stores the settings of the line from `at` on.
fn set_all(
    file: &[u8],
    variables: &[u64; Edition::VARIABLES],
    n: usize,
    line: &[u8],
    at: usize,
    settings: &mut [Option<u64>; Edition::VARIABLES],
) -> Result<(), Refusal>
    requires { (at ≤ length line.now) × (n ≤ max_variables) × Searchable file.now variables.now n × (length settings.old ≡ max_variables) }
    ensures { (accepted_as (λ done. take n settings.new) result ≡ read_settings (variables_in file.now variables.now n) (take n settings.old) (tokens_from true at (drop at line.now))) × (length settings.new ≡ max_variables) }
{
    let mut i = at;
    while i < line.len() {
        let start = spaces(line, i);
        if start == line.len() {
            return Ok(());
        }
        let set = setting(file, variables, n, line, start).map_err(|fault| Refusal::of(
            Subject::Answer,
            fault,
            start,
        ))?;
        let k = set.variable;
        if settings[k].is_some() {
            return Err(Refusal::of(Subject::Answer, Fault::SetTwice, start));
        }
        settings[k] = Some(set.value);
        i = set.stop;
    }
    Ok(())
}

// The `v` line from `at` to the end; the `s` line must be read before.
pub(crate) fn value_line(
    file: &[u8],
    variables: &[u64; Edition::VARIABLES],
    n: usize,
    line: &[u8],
    at: usize,
    settings: &mut [Option<u64>; Edition::VARIABLES],
    solved: bool,
) -> Result<bool, Refusal>
    requires { (at < length line.now) × (n ≤ max_variables) × Searchable file.now variables.now n × (length settings.old ≡ max_variables) }
    ensures { ((next : ℕ) → accepted_as (λ s. settings_of s (take n settings.new)) result ≡ read_values (variables_in file.now variables.now n) (settings_of solved (take n settings.old)) (line_at line.now at next)) × (length settings.new ≡ max_variables) }
{
    if !solved {
        return Err(Refusal::of(Subject::Answer, Fault::MisplacedLine, at));
    }
    let next = at + 1;
    set_all(file, variables, n, line, next, settings)?;
    Ok(true)
}
