// The order of blocks by (rank, instance): the bar and the global log.

#![tactic(auto)]

pub mod pair;

ghost use Rattle.std.specs.Prelude.{◌≡◌, ◌+◌, ◌<◌, ◌≤◌, min, set, length, map};
ghost use Rattle.sums.specs.Seq.{fill, tabulate};
ghost use Rattle.ordering.specs.Order.{global_log};
ghost use Rattle.ordering.specs.Pairs.{ceiling_pair, bar_pair, first_from};
ghost use Rattle.ordering.specs.Inner.{group_first, next_pair, pair_in};
ghost use Rattle.ordering.specs.Table.{rank_in, count_in, block_id, Ordered, climb, usable};

use pair::{Pair, comes_first, first_of, pair_above, pair_of};

#[derive(Clone, Copy)]
pub struct Rank(pub u32);

#[derive(Clone, Copy)]
pub struct SequenceNumber(pub u16);

// An instance has at most as many blocks, and as many cells in a table of ranks.
const BLOCKS: u16 = 128;

// Four instances are a group. The merge keeps the first pair of each of the four groups, so that behind a block its own group alone is looked through.
const GROUP: u16 = 4;

// The rank in slot `index` of an instance, 0 outside the table.
pub fn rank_at(ranks: &[u32], instance: u16, index: u16) -> Rank
    ensures { result.0 ≡ rank_in ranks.now instance index }
{
    let at = (instance as usize) * (BLOCKS as usize) + (index as usize);
    Rank(ranks.get(at).copied().unwrap_or(0))
}

// The count of an instance, 0 past the sixteenth.
pub fn count_at(counts: [u16; 16], instance: u16) -> u16
    ensures { result ≡ count_in counts instance }
{
    count_in(&counts, instance)
}

// The count of an instance, 0 past the end.
fn count_in(counts: &[u16], instance: u16) -> u16
    ensures { result ≡ count_in counts.now instance }
{
    counts.get(instance as usize).copied().unwrap_or(0)
}

// What instance j allows: (its last rank + 1, j). Without a block its last rank counts as 0.
fn ceiling(ranks: &[u32], full: [u16; 16], j: u16) -> Pair
    ensures { (result ≡ ceiling_pair (rank_in ranks.now) (count_in full) j) × (result.rank ≤ 4294967296) }
{
    let n = count_at(full, j);
    if n == 0 {
        return pair_above(Rank(0), j);
    }
    pair_above(rank_at(ranks, j, n - 1), j)
}

// The bar of a view.
pub fn bar(m: u16, ranks: &[u32], full: [u16; 16]) -> Pair
    ensures { (result ≡ bar_pair m (rank_in ranks.now) (count_in full)) × (result.rank ≤ 4294967296) }
{
    let mut low = ceiling(ranks, full, 0);
    for j in 0..m {
        low = first_of(low, ceiling(ranks, full, j));
    }
    low
}

// The pair of the next block of instance j, or the bar.
fn next_of(ranks: &[u32], full: &[u16], stop: Pair, cursors: &[u16], j: u16) -> Pair
    ensures { result ≡ next_pair (rank_in ranks.now) (count_in full.now) stop (count_in cursors.now) j }
{
    let n = count_in(cursors, j);
    if n < count_in(full, j) {
        pair_of(rank_at(ranks, j, n), j)
    } else {
        stop
    }
}

// The first of the next blocks of a group's instances, or the bar. In the last group not all four need be among the first m.
fn first_in_group(m: u16, ranks: &[u32], full: &[u16], stop: Pair, cursors: &[u16], g: u16) -> Pair
    requires { g < 4 }
    ensures { result
        ≡ group_first stop (next_pair (rank_in ranks.now) (count_in full.now) stop (count_in cursors.now)) m g }
{
    let mut low = stop;
    let start = g * GROUP;
    let end = m.min(start + GROUP);
    for j in start..end {
        low = first_of(low, next_of(ranks, full, stop, cursors, j));
    }
    low
}

// The same of each of the four groups.
fn group_firsts(m: u16, ranks: &[u32], full: &[u16], stop: Pair, cursors: &[u16]) -> [Pair; 4]
    ensures { result
        ≡ tabulate 4 (group_first stop (next_pair (rank_in ranks.now) (count_in full.now) stop (count_in cursors.now)) m) }
{
    let a = first_in_group(m, ranks, full, stop, cursors, 0);
    let b = first_in_group(m, ranks, full, stop, cursors, 1);
    let c = first_in_group(m, ranks, full, stop, cursors, 2);
    let d = first_in_group(m, ranks, full, stop, cursors, 3);
    [a, b, c, d]
}

// The first of the groups' pairs, or the bar.
fn next_pair(firsts: [Pair; 4], stop: Pair) -> Pair
    ensures { result ≡ first_from stop (pair_in firsts) 4 }
{
    let mut low = stop;
    for first in firsts {
        low = first_of(low, first);
    }
    low
}

// Stores v where the buffer has the place.
fn put(out: &mut [u16], at: usize, v: u16)
    ensures { out.new ≡ set out.old at v }
{
    if at < out.len() {
        out[at] = v;
    }
}

// Writes the blocks of the global log over the front of `out`, as far as it goes, each as instance * 128 + index.
// Returns how many the log has.
pub fn global_log(m: u16, ranks: &[u32], full: [u16; 16], out: &mut [u16]) -> usize
    requires { Ordered m (rank_in ranks.now) (count_in full) }
    ensures { (result ≡ length (global_log m (rank_in ranks.now) (count_in full)))
        × (out.new ≡ fill (map block_id (global_log m (rank_in ranks.now) (count_in full))) out.old) }
{
    let stop = bar(m, ranks, full);
    let mut cursors = [0u16; 16];
    let mut firsts = group_firsts(m, ranks, &full, stop, &cursors);
    let mut count: usize = 0;
    let mut k = next_pair(firsts, stop);
    while comes_first(k, stop) {
        let i = k.instance as u16;
        let n = count_in(&cursors, i);
        put(out, count, i * BLOCKS + n);
        let at = i as usize;
        cursors[at] = n + 1;
        count += 1;
        let g = i / GROUP;
        firsts[g as usize] = first_in_group(m, ranks, &full, stop, &cursors, g);
        k = next_pair(firsts, stop);
    }
    count
}

// How many of the first `count` blocks of an instance have rising ranks.
fn climbing(ranks: &[u32], instance: u16, count: u16) -> u16
    ensures { result ≡ climb (rank_in ranks.now instance) count }
{
    let mut last: u32 = 0;
    for n in 0..count {
        let r = rank_at(ranks, instance, n);
        let now = r.0;
        if now <= last {
            return n;
        }
        last = now;
    }
    count
}

// The counts as far as the table is one of a ledger: at most 128, and rising from above 0.
pub fn usable_counts(ranks: &[u32], full: [u16; 16]) -> [u16; 16]
    ensures { count_in result ≡ usable (rank_in ranks.now) (count_in full) }
{
    let mut counts = [0u16; 16];
    for j in 0..16 {
        counts[j as usize] = climbing(ranks, j, count_at(full, j).min(BLOCKS));
    }
    counts
}

// The global log of any table: nothing is asked of the caller. A block of rank 0, which no ledger keeps, is not usable, nor is what follows it.
pub fn view_log(m: u16, ranks: &[u32], full: [u16; 16], out: &mut [u16]) -> usize
    ensures { (result ≡ length (global_log m (rank_in ranks.now) (usable (rank_in ranks.now) (count_in full))))
        × (out.new
        ≡ fill (map block_id (global_log m (rank_in ranks.now) (usable (rank_in ranks.now) (count_in full)))) out.old) }
{
    let counts = usable_counts(ranks, full);
    global_log(m, ranks, counts, out)
}
