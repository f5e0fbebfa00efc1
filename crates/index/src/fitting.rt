// Whether an index fits a file of n variables and m lines.
ghost use Rattle.std.specs.Prelude.{◌≡◌, ◌<◌, length, take, drop};
ghost use Rattle.index.specs.Index.{index_of, lent_index};
ghost use Rattle.index.specs.AnyIndex.{starts_fit, list_fits, lists_fit, index_fits_for};

use super::LentIndex;
use refusal::{Fault, Refusal, Subject};

// Whether no start, or the end, is missing, falls or passes the room.
fn starts_fit(starts: &[u32], lists: &[u32], n: usize) -> bool
    ensures { result ≡ starts_fit n (index_of starts.now lists.now) }
{
    if starts.len() <= n {
        return false;
    }
    let mut last = 0u32;
    let mut i = 0;
    while i <= n {
        let start = starts[i];
        if start < last {
            return false;
        }
        if lists.len() < start as usize {
            return false;
        }
        last = start;
        i += 1;
    }
    true
}

// Whether the list from one place up to another rises, with line numbers from 1 to m. The last is the largest, so it alone is held against m.
fn list_fits(lists: &[u32], from: usize, to: usize, m: usize) -> bool
    ensures { result ≡ list_fits m (drop from (take to lists.now)) }
{
    let end = to.min(lists.len());
    let mut last = 0u32;
    let mut k = from;
    while k < end {
        let line = lists[k];
        if line <= last {
            return false;
        }
        last = line;
        k += 1;
    }
    last as usize <= m
}

// Whether each variable's list does.
fn lists_fit(starts: &[u32], lists: &[u32], n: usize, m: usize) -> bool
    requires { n < length starts.now }
    ensures { result ≡ lists_fit n m (index_of starts.now lists.now) }
{
    let mut i = 0;
    while i < n {
        let next = i + 1;
        if list_fits(lists, starts[i] as usize, starts[next] as usize, m) {
            i = next;
        } else {
            return false;
        }
    }
    true
}

// The test of a whole index: of the starts, then of the lists.
pub fn index_fits(index: LentIndex<'_>, n: usize, m: usize) -> Result<(), Refusal>
    ensures { result ≡ index_fits_for n m (lent_index index.entry) }
{
    if !starts_fit(index.starts, index.lists, n) {
        return Err(Refusal::of(Subject::Starts, Fault::WrongIndex, 0));
    }
    if !lists_fit(index.starts, index.lists, n, m) {
        return Err(Refusal::of(Subject::Lists, Fault::WrongIndex, 0));
    }
    Ok(())
}
