// Free and held amounts in a view (document 01, "Amounts in a view").
ghost use Rattle.std.specs.Prelude.{◌*◌, ◌≤◌, [], ◌≡◌};
ghost use Rattle.escrow.specs.Amounts.{credited, is_paid};
ghost use Rattle.escrow.specs.Cells.{free_in, held_in};
ghost use Rattle.escrow.specs.Inner.{counts_paid, debits_out, out_at, takes};
ghost use Rattle.settlement.specs.Cells.{rows_in};
ghost use Rattle.settlement.specs.Inner.{as_ruled};
ghost use Rattle.settlement.specs.Tables.{status_in};
ghost use Rattle.sheets.specs.Parts.{credit_on};
ghost use Rattle.sheets.specs.Sheet.{sheet_in};
ghost use Rattle.sums.specs.Test.{given};

use settlement::rows::{cite_at, good_at};
use settlement::settle::status_at;
use settlement::status::{Status, status_of};
use sheets::parts::home_of;
use sheets::sheet::{Sizes, balance_at, credit_on, debit_on};

// Whose debits count: for the free amount those of all transactions but returned ones, for the held amount those of open ones.
#[derive(Clone, Copy, Debug, PartialEq, Eq)]
enum Counted {
    NotReturned,
    Open,
}

// Whether debits of a transaction of this status count.
#[tactic(auto, unfolding(crate::specs::Inner::takes, sums::specs::Test::pick))]
fn takes_it(counted: Counted, status: Status) -> bool
    ensures { result ≡ takes (counts_paid counted) (as_ruled status) }
{
    match status {
        Status::Open => true,
        Status::Paid => counted == Counted::NotReturned,
        Status::Returned => false,
    }
}

// What the citation at place p of instance h's row takes from account k.
fn out_at(
    sheet: &[u8],
    cites: &[u16],
    good: &[u8],
    z: Sizes,
    table: &[u8],
    counted: Counted,
    h: u16,
    k: u16,
    p: u16,
) -> u64
    ensures { (result ≡ out_at (sheet_in sheet.now z) (rows_in [] cites.now good.now) (status_in z table.now) (counts_paid counted) h k p)
        × (result ≤ 1095216660225) }
{
    if !good_at(good, h, p) {
        return 0;
    }
    let x = cite_at(cites, h, p);
    if !takes_it(counted, status_of(status_at(table, z, x))) {
        return 0;
    }
    debit_on(sheet, z, x, k)
}

// The debits of account k in the first n places of instance h's row.
fn debits_out(
    sheet: &[u8],
    cites: &[u16],
    good: &[u8],
    z: Sizes,
    table: &[u8],
    counted: Counted,
    h: u16,
    k: u16,
    n: u16,
) -> u64
    ensures { (result
        ≡ debits_out (sheet_in sheet.now z) (rows_in [] cites.now good.now) (status_in z table.now) (counts_paid counted) h k n)
        × (result ≤ n * 1095216660225) }
{
    let mut sum: u64 = 0;
    for p in 0..n {
        sum += out_at(sheet, cites, good, z, table, counted, h, k, p);
    }
    sum
}

// Whether transaction x is paid.
fn is_paid(table: &[u8], z: Sizes, x: u16) -> bool
    ensures { result ≡ is_paid (status_in z table.now x) }
{
    status_of(status_at(table, z, x)) == Status::Paid
}

// What transaction x gives to account k if it is paid.
fn credit_if(sheet: &[u8], z: Sizes, table: &[u8], k: u16, x: u16) -> u64
    ensures { (result ≡ given (is_paid (status_in z table.now x)) (credit_on (sheet_in sheet.now z) x k)) × (result ≤ 1095216660225) }
{
    if is_paid(table, z, x) {
        credit_on(sheet, z, x, k)
    } else {
        0
    }
}

// What the paid transactions give to account k.
fn credits_in(sheet: &[u8], z: Sizes, table: &[u8], k: u16) -> u64
    ensures { (result ≡ credited (sheet_in sheet.now z) (status_in z table.now) k) × (result ≤ 65535 * 1095216660225) }
{
    let mut sum: u64 = 0;
    for x in 0..z.t {
        sum += credit_if(sheet, z, table, k, x);
    }
    sum
}

// The free amount of account k in a view, by the statuses that stand in the table.
pub fn free_of(
    sheet: &[u8],
    cites: &[u16],
    good: &[u8],
    z: Sizes,
    view: [u16; 16],
    table: &[u8],
    k: u16,
) -> u64
    ensures { result ≡ free_in sheet.now z cites.now good.now view table.now k }
{
    let h = home_of(sheet, z, k);
    let up = balance_at(sheet, z, k) + credits_in(sheet, z, table, k);
    let down = debits_out(
        sheet,
        cites,
        good,
        z,
        table,
        Counted::NotReturned,
        h,
        k,
        ordering::count_at(view, h),
    );
    up.saturating_sub(down)
}

// The held amount of account k in a view, by the statuses that stand in the table.
pub fn held_of(
    sheet: &[u8],
    cites: &[u16],
    good: &[u8],
    z: Sizes,
    view: [u16; 16],
    table: &[u8],
    k: u16,
) -> u64
    ensures { result ≡ held_in sheet.now z cites.now good.now view table.now k }
{
    let h = home_of(sheet, z, k);
    debits_out(
        sheet,
        cites,
        good,
        z,
        table,
        Counted::Open,
        h,
        k,
        ordering::count_at(view, h),
    )
}
