// The index of the file in the tables: how many lines name each variable, where its list starts, and the lists.
ghost use Rattle.std.specs.Prelude.{◌≡◌, [], ◌∷◌, ◌++◌, ℕ, suc, ◌+◌, ◌≤◌, ◌<◌, eqb, length, get_or, take, drop};
ghost use Rattle.edition.specs.Edition.{max_variables, max_lines};
ghost use Rattle.refusal.specs.Lists.{how_many};
ghost use Rattle.constraint.specs.File.{File};
ghost use Rattle.store.specs.Tables.{table_heads, table_bodies, line_in, lines_in};
ghost use Rattle.index.specs.Select.{names};
ghost use Rattle.index.specs.Index.{own_lists, own_start};
ghost use Rattle.index.specs.Claims.{max_listed};
ghost use Rattle.index.specs.Internal.{one, entry_of, held_file, sum_to, CountsAtMost, CountsGrown, ListRoom, LinePut, index_for};

use super::naming::variables_of;
use edition::Edition;
use refusal::{Fault, Refusal, Subject};
use store::lines::{TABLE_BODIES, TABLE_HEADS};

// One line more for variable i; NONE has no count.
fn count_one(counts: &mut [u32; Edition::VARIABLES], i: usize)
    requires { (length counts.old ≡ max_variables) × (i < max_variables → get_or counts.old i 0 < max_listed) }
    ensures { (length counts.new ≡ max_variables) × CountsGrown counts.old (λ q. one (eqb q i)) counts.new }
{
    if i < Edition::VARIABLES {
        counts[i] += 1;
    }
}

// Counts line k for each variable that it names.
fn count_line<'a>(
    counts: &mut [u32; Edition::VARIABLES],
    heads: &'a [u8; TABLE_HEADS],
    bodies: &'a [u64; TABLE_BODIES],
    k: usize,
)
    requires { (length counts.old ≡ max_variables) × (length heads.now ≡ table_heads) × (length bodies.now ≡ table_bodies) × (k < max_lines) × CountsAtMost k counts.old }
    ensures { (length counts.new ≡ max_variables) × CountsGrown counts.old (λ q. one (names q (line_in heads.now bodies.now k))) counts.new }
{
    let line = variables_of(heads, bodies, k);
    count_one(counts, line.output);
    count_one(counts, line.first);
    count_one(counts, line.second);
    count_one(counts, line.third);
}

// How many of m lines name each variable.
fn count<'a>(
    counts: &mut [u32; Edition::VARIABLES],
    heads: &'a [u8; TABLE_HEADS],
    bodies: &'a [u64; TABLE_BODIES],
    m: usize,
)
    requires { (length counts.old ≡ max_variables) × (length heads.now ≡ table_heads) × (length bodies.now ≡ table_bodies) × (m ≤ max_lines) × ((q : ℕ) → q < max_variables → get_or counts.old q 0 ≡ 0) }
    ensures { (length counts.new ≡ max_variables) × ((q : ℕ) → q < max_variables → get_or counts.new q 0 ≡ how_many (names q) (lines_in heads.now bodies.now m)) }
{
    let mut k = 0;
    while k < m {
        count_line(counts, heads, bodies, k);
        k += 1;
    }
}

// Turns the counts of n variables into where their lists start; the end of the last.
fn accumulate(counts: &mut [u32; Edition::VARIABLES], n: usize) -> u32
    requires { (length counts.old ≡ max_variables) × (n ≤ max_variables) × (sum_to (entry_of counts.old) n ≤ max_listed) }
    ensures { (length counts.new ≡ max_variables) × (result ≡ sum_to (entry_of counts.old) n) × ((q : ℕ) → q < n → get_or counts.new q 0 ≡ sum_to (entry_of counts.old) q) }
{
    let mut end = 0;
    let mut i = 0;
    while i < n {
        let count = counts[i];
        counts[i] = end;
        end += count;
        i += 1;
    }
    end
}

// Puts the starts of n variables and the end at the front of the lent table.
fn put_starts(firsts: &[u32; Edition::VARIABLES], n: usize, end: u32, starts: &mut [u32])
    requires { (length firsts.now ≡ max_variables) × (n ≤ max_variables) × (n < length starts.old) }
    ensures { starts.new ≡ (take n firsts.now ++ (end ∷ [])) ++ drop (suc n) starts.old }
{
    let mut i = 0;
    while i < n {
        starts[i] = firsts[i];
        i += 1;
    }
    starts[n] = end;
}

// Puts a line's number into the list of variable i, of n, where `next` says.
fn list_one(lists: &mut [u32], next: &mut [u32; Edition::VARIABLES], n: usize, i: usize, line: u32)
    requires { (length next.old ≡ max_variables) × (n ≤ max_variables) × ListRoom n (λ q. one (eqb q i)) next.old lists.old }
    ensures { LinePut n (λ q. one (eqb q i)) line next.old lists.old next.new lists.new }
{
    if i < n {
        let at = next[i];
        lists[at as usize] = line;
        next[i] = at + 1;
    }
}

// Lists line k for each variable that it names.
fn list_line<'a>(
    lists: &mut [u32],
    next: &mut [u32; Edition::VARIABLES],
    heads: &'a [u8; TABLE_HEADS],
    bodies: &'a [u64; TABLE_BODIES],
    n: usize,
    k: usize,
)
    requires { (length next.old ≡ max_variables) × (length heads.now ≡ table_heads) × (length bodies.now ≡ table_bodies) × (n ≤ max_variables) × (k < max_lines) × ListRoom n (λ q. one (names q (line_in heads.now bodies.now k))) next.old lists.old }
    ensures { LinePut n (λ q. one (names q (line_in heads.now bodies.now k))) (k + 1) next.old lists.old next.new lists.new }
{
    let line = variables_of(heads, bodies, k);
    let number = k as u32 + 1;
    list_one(lists, next, n, line.output, number);
    list_one(lists, next, n, line.first, number);
    list_one(lists, next, n, line.second, number);
    list_one(lists, next, n, line.third, number);
}

// The lists of n variables, from where `next` says that they start.
fn list_all<'a>(
    lists: &mut [u32],
    next: &mut [u32; Edition::VARIABLES],
    heads: &'a [u8; TABLE_HEADS],
    bodies: &'a [u64; TABLE_BODIES],
    n: usize,
    m: usize,
)
    requires { (length next.old ≡ max_variables) × (length heads.now ≡ table_heads) × (length bodies.now ≡ table_bodies) × (n ≤ max_variables) × (m ≤ max_lines) × ((q : ℕ) → q < n → get_or next.old q 0 ≡ own_start (held_file heads.now bodies.now m) q) × (own_start (held_file heads.now bodies.now m) n ≤ length lists.old) }
    ensures { lists.new ≡ own_lists (held_file heads.now bodies.now m) n ++ drop (own_start (held_file heads.now bodies.now m) n) lists.old }
{
    let mut k = 0;
    while k < m {
        list_line(lists, next, heads, bodies, n, k);
        k += 1;
    }
}

// The index of the file in the tables, of n variables and m lines.
pub(crate) fn index_held<'a>(
    heads: &'a [u8; TABLE_HEADS],
    bodies: &'a [u64; TABLE_BODIES],
    n: usize,
    m: usize,
    starts: &mut [u32],
    lists: &mut [u32],
) -> Result<usize, Refusal>
    requires { (length heads.now ≡ table_heads) × (length bodies.now ≡ table_bodies) × (n ≤ max_variables) × (m ≤ max_lines) }
    ensures { (f : File) → length f.variables ≡ n → f.lines ≡ lines_in heads.now bodies.now m → record { reply = result; starts = starts.new; lists = lists.new } ≡ index_for f starts.old lists.old }
{
    if starts.len() <= n {
        return Err(Refusal::of(Subject::Starts, Fault::TooShort, 0));
    }
    let mut next = [0u32; Edition::VARIABLES];
    count(&mut next, heads, bodies, m);
    let end = accumulate(&mut next, n);
    if lists.len() < end as usize {
        return Err(Refusal::of(Subject::Lists, Fault::TooShort, 0));
    }
    put_starts(&next, n, end, starts);
    list_all(lists, &mut next, heads, bodies, n, m);
    Ok(end as usize)
}
