// Rows of values.
ghost use Rattle.std.specs.Prelude.{◌≡◌, ◌++◌, ◌≤◌, length, take, drop};
ghost use Rattle.edition.specs.Edition.{max_variables};

use edition::Edition;

// Puts the first n values of a row at the front of a table.
pub fn store_row(row: &[u64; Edition::VARIABLES], n: usize, values: &mut [u64])
    requires { (n ≤ max_variables) × (length row.now ≡ max_variables) × (n ≤ length values.old) }
    ensures { values.new ≡ take n row.now ++ drop n values.old }
{
    values[..n].copy_from_slice(&row[..n]);
}
