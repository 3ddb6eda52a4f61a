// The sheet in its cells: what it says of accounts and transactions.
ghost use Rattle.std.specs.Prelude.{◌≤◌, ◌≡◌};
ghost use Rattle.transactions.specs.Body.{entry_in};
ghost use Rattle.sheets.specs.Inner.{entries_on, entry_on};
ghost use Rattle.sheets.specs.Parts.{credit_on, debit_on, is_contract};
ghost use Rattle.sheets.specs.Sheet.{balance, sheet_in, slot, tx_at};

use fields::{byte_at, front, rest, u64_at};
use transactions::lists::{account_at, amount_at, credits, debits};

// The sizes of a sheet.
#[derive(Clone, Copy)]
pub struct Sizes {
    pub m: u16,
    pub a: u16,
    pub g: u16,
    pub t: u16,
}

// The slot of transaction x: its body, and what lies behind it up to 100 bytes.
pub fn slot_of(sheet: &[u8], z: Sizes, x: u16) -> &[u8]
    ensures { result.now ≡ slot sheet.now z x }
{
    front(rest(sheet, 8 * (z.a as usize) + 100 * (x as usize)), 100)
}

// The type of transaction x (document 01's word; `kind` in the record), 0 where there is none.
fn kind_of(sheet: &[u8], z: Sizes, x: u16) -> u8
    ensures { result ≡ (tx_at (sheet_in sheet.now z) x).kind }
{
    if x < z.t {
        byte_at(slot_of(sheet, z, x), 0)
    } else {
        0
    }
}

// Whether transaction x is a contract: its type is 1.
pub fn is_contract(sheet: &[u8], z: Sizes, x: u16) -> bool
    ensures { result ≡ is_contract (sheet_in sheet.now z) x }
{
    kind_of(sheet, z, x) == 1
}

// No balance is above 2^40.
const MOST_BALANCE: u64 = 1099511627776;

// The starting balance of account k.
pub fn balance_at(sheet: &[u8], z: Sizes, k: u16) -> u64
    ensures { (result ≡ balance (sheet_in sheet.now z) k) × (result ≤ 1099511627776) }
{
    if z.a <= k {
        return 0;
    }
    u64_at(sheet, 8 * (k as usize)).min(MOST_BALANCE)
}

// What entry i of a list puts on account k.
fn entry_on(list: &[u8], i: u8, k: u16) -> u64
    ensures { (result ≡ entry_on (entry_in list.now) k i) × (result ≤ 4294967295) }
{
    if account_at(list, i) == k {
        amount_at(list, i) as u64
    } else {
        0
    }
}

// What the first n entries of a list put on account k.
fn entries_on(list: &[u8], n: u8, k: u16) -> u64
    ensures { (result ≡ entries_on (entry_in list.now) n k) × (result ≤ 1095216660225) }
{
    let mut sum: u64 = 0;
    for i in 0..n {
        sum += entry_on(list, i, k);
    }
    sum
}

// What transaction x debits account k.
pub fn debit_on(sheet: &[u8], z: Sizes, x: u16, k: u16) -> u64
    ensures { (result ≡ debit_on (sheet_in sheet.now z) x k) × (result ≤ 1095216660225) }
{
    if z.t <= x {
        return 0;
    }
    let body = slot_of(sheet, z, x);
    entries_on(debits(body), byte_at(body, 1), k)
}

// What transaction x credits account k.
pub fn credit_on(sheet: &[u8], z: Sizes, x: u16, k: u16) -> u64
    ensures { (result ≡ credit_on (sheet_in sheet.now z) x k) × (result ≤ 1095216660225) }
{
    if z.t <= x {
        return 0;
    }
    let body = slot_of(sheet, z, x);
    entries_on(credits(body), byte_at(body, 2), k)
}
