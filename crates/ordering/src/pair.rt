// A rank and an instance, and which of two such pairs comes first: by cases, as section 4.2 of source document 001 has it (request 06).
ghost use Rattle.std.specs.Prelude.{◌≡◌, ◌+◌};
ghost use Rattle.ordering.specs.Pairs.{pair_of, compared, is_first, first_of};

use crate::Rank;
use std::cmp::Ordering;

// The rank and the instance of a block, or those of the bar. The bar's rank is a last rank + 1, so it may be 2^32, which no `Rank` is: hence 64 bits.
// The instance has as many, so that a pair has no gap and stays in registers.
// Of `pair_of` and `pair_above` alone is a pair to be had, and these take a `Rank`: there is none of a sequence number.
#[derive(Clone, Copy)]
pub struct Pair {
    rank: u64,
    pub instance: u64,
}

// The pair of a block.
pub fn pair_of(rank: Rank, instance: u16) -> Pair
    ensures { result ≡ pair_of rank.0 instance }
{
    Pair {
        rank: rank.0 as u64,
        instance: instance as u64,
    }
}

// The pair one rank higher.
pub fn pair_above(rank: Rank, instance: u16) -> Pair
    ensures { result ≡ pair_of (rank.0 + 1) instance }
{
    Pair {
        rank: (rank.0 as u64) + 1,
        instance: instance as u64,
    }
}

// A lower rank comes first, a higher rank comes after, at equal ranks the lower instance comes first, and of two equal pairs neither does.
pub fn compare(a: Pair, b: Pair) -> Ordering
    ensures { result ≡ compared a b }
{
    if a.rank < b.rank {
        return Ordering::Less;
    }
    if b.rank < a.rank {
        return Ordering::Greater;
    }
    if a.instance < b.instance {
        return Ordering::Less;
    }
    if b.instance < a.instance {
        return Ordering::Greater;
    }
    Ordering::Equal
}

// Whether a comes first of the two.
pub fn comes_first(a: Pair, b: Pair) -> bool
    ensures { result ≡ is_first (compared a b) }
{
    compare(a, b).is_lt()
}

// The one of two pairs that comes first.
pub fn first_of(a: Pair, b: Pair) -> Pair
    ensures { result ≡ first_of a b }
{
    if comes_first(b, a) { b } else { a }
}
