// The share of settled transactions (document 01, "One reading, whole"; request 05).
ghost use Rattle.std.specs.Prelude.{◌≤◌, ◌≡◌};
ghost use Rattle.escrow.specs.Amounts.{is_pending};
ghost use Rattle.escrow.specs.Share.{settled_count, share_of, thousandths};
ghost use Rattle.settlement.specs.Tables.{status_in};
ghost use Rattle.sums.specs.Test.{flip};

use settlement::settle::status_at;
use settlement::status::{Status, status_of};
use sheets::sheet::Sizes;
use std::cmp::Ordering;

// Whether transaction x is open.
fn is_open(table: &[u8], z: Sizes, x: u16) -> bool
    ensures { result ≡ is_pending (status_in z table.now x) }
{
    status_of(status_at(table, z, x)) == Status::Open
}

// 1 where transaction x is settled.
fn settled_bit(table: &[u8], z: Sizes, x: u16) -> u32
    ensures { (result ≡ flip (is_pending (status_in z table.now x))) × (result ≤ 1) }
{
    u32::from(!is_open(table, z, x))
}

fn settled_count(table: &[u8], z: Sizes) -> u32
    ensures { (result ≡ settled_count z.t (status_in z table.now)) × (result ≤ z.t) }
{
    let mut n: u32 = 0;
    for x in 0..z.t {
        n += settled_bit(table, z, x);
    }
    n
}

// s of t in thousandths, to the nearest and a tie to the even figure; 1000 where t is 0. Any two numbers will do: with s above t the
// figure may be as high as 1000 times s.
pub fn thousandths(s: u32, t: u32) -> u64
    ensures { result ≡ thousandths s t }
{
    if t == 0 {
        return 1000;
    }
    let n = (s as u64) * 1000;
    let d = t as u64;
    let q = n / d;
    let twice = n % d * 2;
    match twice.cmp(&d) {
        Ordering::Less => q,
        Ordering::Equal => q + q % 2,
        Ordering::Greater => q + 1,
    }
}

// The share by a table's statuses; at most 1000.
pub fn share_of(table: &[u8], z: Sizes) -> u32
    ensures { result ≡ share_of z.t (status_in z table.now) }
{
    thousandths(settled_count(table, z), z.t as u32) as u32
}
