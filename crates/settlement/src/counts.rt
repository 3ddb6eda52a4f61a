// The table of counts: two cells a transaction, its citations and those that failed.
ghost use Rattle.std.specs.Prelude.{get_or, ◌≡◌};
ghost use Rattle.settlement.specs.Inner.{add_at, count_at, count_one, count_row, count_rows};
ghost use Rattle.sums.specs.Test.{flip};

use crate::rows::{cite_at, good_at};
use fields::put;

// Adds n to cell i, where there is one; a sum stops at 2^32 - 1.
#[tactic(auto, unfolding(crate::specs::Inner::add_at))]
fn add_at(counts: &mut [u32], i: usize, n: u32)
    ensures { counts.new ≡ add_at counts.old i n }
{
    put(counts, i, count_of(counts, i).saturating_add(n));
}

// Counts a citation of x.
pub fn count_one(counts: &mut [u32], x: u16, good: bool)
    ensures { counts.new ≡ count_one counts.old x (flip good) }
{
    let at = 2 * (x as usize);
    add_at(counts, at, 1);
    add_at(counts, at + 1, u32::from(!good));
}

// Cell i of the counts; 0 where there is none.
pub fn count_of(counts: &[u32], i: usize) -> u32
    ensures { result ≡ get_or counts.now i 0 }
{
    counts.get(i).copied().unwrap_or(0)
}

// Counts the citation at place p of instance j's row. A place with no transaction's number, as 65535, is passed over.
fn count_at(cites: &[u16], good: &[u8], t: u16, j: u16, p: u16, counts: &mut [u32])
    ensures { counts.new ≡ count_at t cites.now good.now j p counts.old }
{
    let x = cite_at(cites, j, p);
    if x < t {
        count_one(counts, x, good_at(good, j, p));
    }
}

// The first n places of instance j's row.
fn count_row(cites: &[u16], good: &[u8], t: u16, j: u16, n: u16, counts: &mut [u32])
    ensures { counts.new ≡ count_row t cites.now good.now j n counts.old }
{
    for p in 0..n {
        count_at(cites, good, t, j, p, counts);
    }
}

// The places of a view in the rows of m instances.
pub fn count_view(cites: &[u16], good: &[u8], m: u16, t: u16, view: [u16; 16], counts: &mut [u32])
    ensures { counts.new ≡ count_rows t cites.now good.now view m counts.old }
{
    for j in 0..m {
        count_row(cites, good, t, j, ordering::count_at(view, j), counts);
    }
}
