// The exports for C programs: each is the call of the library under the same contract. include/spear.h has their declarations.
#![tactic(auto)]

ghost use Rattle.std.specs.Prelude.{◌≡◌, None, Some};
ghost use Rattle.judge.specs.InUse.{tables_of};
ghost use Rattle.tables.specs.Check.{check_outcome};
ghost use Rattle.writer.specs.Write.{write_outcome};
ghost use Rattle.clean.specs.Clean.{clean_outcome};
ghost use Rattle.index.specs.Index.{index_of, index_outcome};
ghost use Rattle.moves.specs.Gate.{changing};
ghost use Rattle.moves.specs.Change.{change_outcome};
ghost use Rattle.spear.specs.Code.{check_code};
ghost use Rattle.spear.specs.Pack.{packed_check, packed_change, packed_write, packed_index};

// Checks an answer against a constraint file, any bytes both; the tables are local to the call.
#[unsafe(no_mangle)]
pub extern "C" fn spear_check(constraints: &[u8], answer: &[u8]) -> u32
    ensures { result ≡ check_code constraints.now answer.now }
{
    spear::spear_check(constraints, answer)
}

// The check into the caller's tables.
#[unsafe(no_mangle)]
pub extern "C" fn spear_check_tables(
    constraints: &[u8],
    answer: &[u8],
    values: &mut [u64],
    verdicts: &mut [u8],
    results: &mut [u64],
) -> u64
    ensures { record { word = result; tables = tables_of values.new verdicts.new results.new } ≡ packed_check (check_outcome constraints.now answer.now (tables_of values.old verdicts.old results.old)) }
{
    spear::spear_check_tables(constraints, answer, values, verdicts, results)
}

// The change of a variable, from 0, to a value, on the caller's tables.
#[unsafe(no_mangle)]
pub extern "C" fn spear_change(
    constraints: &[u8],
    values: &mut [u64],
    verdicts: &mut [u8],
    results: &mut [u64],
    variable: usize,
    value: u64,
) -> u64
    ensures { record { word = result; tables = tables_of values.new verdicts.new results.new } ≡ packed_change (change_outcome constraints.now (tables_of values.old verdicts.old results.old) (changing variable value None)) }
{
    spear::spear_change(constraints, values, verdicts, results, variable, value)
}

// The index of a constraint file, into the caller's two tables.
#[unsafe(no_mangle)]
pub extern "C" fn spear_index(constraints: &[u8], starts: &mut [u32], lists: &mut [u32]) -> u64
    ensures { record { word = result; starts = starts.new; lists = lists.new } ≡ packed_index (index_outcome constraints.now starts.old lists.old) }
{
    spear::spear_index(constraints, starts, lists)
}

// The change through an index.
#[unsafe(no_mangle)]
pub extern "C" fn spear_change_through(
    constraints: &[u8],
    values: &mut [u64],
    verdicts: &mut [u8],
    results: &mut [u64],
    starts: &[u32],
    lists: &[u32],
    variable: usize,
    value: u64,
) -> u64
    ensures { record { word = result; tables = tables_of values.new verdicts.new results.new } ≡ packed_change (change_outcome constraints.now (tables_of values.old verdicts.old results.old) (changing variable value (Some (index_of starts.now lists.now)))) }
{
    spear::spear_change_through(
        constraints,
        values,
        verdicts,
        results,
        starts,
        lists,
        variable,
        value,
    )
}

// The clean spelling of a constraint file, into the caller's room.
#[unsafe(no_mangle)]
pub extern "C" fn spear_clean(constraints: &[u8], output: &mut [u8]) -> u64
    ensures { record { word = result; output = output.new } ≡ packed_write (clean_outcome constraints.now output.old) }
{
    spear::spear_clean(constraints, output)
}

// The answer with the caller's values, into the caller's room.
#[unsafe(no_mangle)]
pub extern "C" fn spear_write(constraints: &[u8], values: &[u64], output: &mut [u8]) -> u64
    ensures { record { word = result; output = output.new } ≡ packed_write (write_outcome constraints.now values.now output.old) }
{
    spear::spear_write(constraints, values, output)
}
