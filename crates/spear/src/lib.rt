// The calls for C programs; spear_c exports them.
#![tactic(auto)]

ghost use Rattle.std.specs.Prelude.{◌≡◌, None, Some};
ghost use Rattle.judge.specs.InUse.{tables_of};
ghost use Rattle.tables.specs.Check.{check_outcome};
ghost use Rattle.writer.specs.Write.{write_outcome};
ghost use Rattle.clean.specs.Clean.{clean_outcome};
ghost use Rattle.index.specs.Index.{index_of, index_outcome};
ghost use Rattle.moves.specs.Gate.{changing};
ghost use Rattle.moves.specs.Change.{change_outcome};
ghost use Rattle.spear.specs.Code.{code_of, check_code};
ghost use Rattle.spear.specs.Pack.{packed_check, packed_change, packed_write, packed_index};

use clean::clean;
use index::index;
use judge::verdicts::overall_number;
use moves::change::{change, change_through};
use packing::{pack_change, pack_check, pack_count};
use refusal::Refusal;
use tables::Report;
use tables::check::check;
use tables::reports::report;
use writer::write;

pub mod claims;
mod packing;

// What is added to a refusal's number.
const REFUSED: u32 = 100;

fn code_of(reply: Result<Report, Refusal>) -> u32
    ensures { result ≡ code_of reply }
{
    match reply {
        Ok(report) => overall_number(report.overall) as u32,
        Err(refusal) => REFUSED + refusal.fault.number() as u32,
    }
}

// Checks an answer against a constraint file, any bytes both; the tables are local to the call.
pub fn spear_check(constraints: &[u8], answer: &[u8]) -> u32
    ensures { result ≡ check_code constraints.now answer.now }
{
    code_of(report(constraints, answer))
}

// The check into the caller's tables.
pub fn spear_check_tables(
    constraints: &[u8],
    answer: &[u8],
    values: &mut [u64],
    verdicts: &mut [u8],
    results: &mut [u64],
) -> u64
    ensures { record { word = result; tables = tables_of values.new verdicts.new results.new } ≡ packed_check (check_outcome constraints.now answer.now (tables_of values.old verdicts.old results.old)) }
{
    pack_check(check(constraints, answer, values, verdicts, results))
}

// The change of a variable, from 0, to a value, on the caller's tables.
pub fn spear_change(
    constraints: &[u8],
    values: &mut [u64],
    verdicts: &mut [u8],
    results: &mut [u64],
    variable: usize,
    value: u64,
) -> u64
    ensures { record { word = result; tables = tables_of values.new verdicts.new results.new } ≡ packed_change (change_outcome constraints.now (tables_of values.old verdicts.old results.old) (changing variable value None)) }
{
    pack_change(change(constraints, values, verdicts, results, variable, value))
}

// The index of a constraint file, into the caller's two tables.
pub fn spear_index(constraints: &[u8], starts: &mut [u32], lists: &mut [u32]) -> u64
    ensures { record { word = result; starts = starts.new; lists = lists.new } ≡ packed_index (index_outcome constraints.now starts.old lists.old) }
{
    pack_count(index(constraints, starts, lists))
}

// The change through an index.
pub fn spear_change_through(
    constraints: &[u8],
    values: &mut [u64],
    verdicts: &mut [u8],
    results: &mut [u64],
    starts: &[u32],
    lists: &[u32],
    variable: usize,
    value: u64,
) -> u64
    ensures { record { word = result; tables = tables_of values.new verdicts.new results.new } ≡ packed_change (change_outcome constraints.now (tables_of values.old verdicts.old results.old) (changing variable value (Some (index_of starts.now lists.now)))) }
{
    pack_change(change_through(
        constraints,
        values,
        verdicts,
        results,
        starts,
        lists,
        variable,
        value,
    ))
}

// The clean spelling of a constraint file, into the caller's room.
pub fn spear_clean(constraints: &[u8], output: &mut [u8]) -> u64
    ensures { record { word = result; output = output.new } ≡ packed_write (clean_outcome constraints.now output.old) }
{
    pack_count(clean(constraints, output))
}

// The answer with the caller's values, into the caller's room.
pub fn spear_write(constraints: &[u8], values: &[u64], output: &mut [u8]) -> u64
    ensures { record { word = result; output = output.new } ≡ packed_write (write_outcome constraints.now values.now output.old) }
{
    pack_count(write(constraints, values, output))
}
