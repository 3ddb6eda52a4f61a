// The parts of a transaction (document 01, "Parts").
ghost use Rattle.std.specs.Prelude.{◌≤◌, ◌≡◌};
ghost use Rattle.transactions.specs.Body.{entry_in};
ghost use Rattle.sheets.specs.Inner.{entry_at_home, first_at_home};
ghost use Rattle.sheets.specs.Parts.{has_part, home, parts};
ghost use Rattle.sheets.specs.Sheet.{sheet_in};
ghost use Rattle.sums.specs.Sum.{sum_to};
ghost use Rattle.sums.specs.Test.{any_to, given};

use crate::sheet::{Sizes, slot_of};
use fields::byte_at;
use transactions::lists::{account_at, debits};

// The instance of account k.
pub fn home_of(sheet: &[u8], z: Sizes, k: u16) -> u16
    ensures { result ≡ home (sheet_in sheet.now z) k }
{
    let m = z.m;
    if m == 0 { k } else { k % m }
}

// One of the first n entries of a list is on an account of instance j.
fn any_home(sheet: &[u8], z: Sizes, list: &[u8], n: u8, j: u16) -> bool
    ensures { result ≡ any_to n (entry_at_home (sheet_in sheet.now z) (entry_in list.now) j) }
{
    for i in 0..n {
        if home_of(sheet, z, account_at(list, i)) == j {
            return true;
        }
    }
    false
}

// Whether transaction x has a part in instance j.
pub fn has_part(sheet: &[u8], z: Sizes, x: u16, j: u16) -> bool
    ensures { result ≡ has_part (sheet_in sheet.now z) x j }
{
    if z.t <= x {
        return false;
    }
    let body = slot_of(sheet, z, x);
    any_home(sheet, z, debits(body), byte_at(body, 1), j)
}

// 1 where entry i is the first of its list on an account of its instance.
fn first_at(sheet: &[u8], z: Sizes, list: &[u8], i: u8) -> u16
    ensures { (result ≡ given (first_at_home (sheet_in sheet.now z) (entry_in list.now) i) 1) × (result ≤ 1) }
{
    let h = home_of(sheet, z, account_at(list, i));
    u16::from(!any_home(sheet, z, list, i, h))
}

// How many instances the first n entries of a list are in.
fn homes(sheet: &[u8], z: Sizes, list: &[u8], n: u8) -> u16
    ensures { result ≡ sum_to n (λ i. given (first_at_home (sheet_in sheet.now z) (entry_in list.now) i) 1) }
{
    let mut count: u16 = 0;
    for i in 0..n {
        count += first_at(sheet, z, list, i);
    }
    count
}

// How many parts transaction x has: one for each instance of its debits.
pub fn parts_of(sheet: &[u8], z: Sizes, x: u16) -> u16
    ensures { (result ≡ parts (sheet_in sheet.now z) x) × (result ≤ z.m) }
{
    if z.m == 0 {
        return 0;
    }
    if z.t <= x {
        return 0;
    }
    let body = slot_of(sheet, z, x);
    homes(sheet, z, debits(body), byte_at(body, 1))
}
