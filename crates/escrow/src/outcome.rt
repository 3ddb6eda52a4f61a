// Part outcomes (document 01, "Part outcome").
ghost use Rattle.std.specs.Prelude.{◌*◌, ◌≤◌, length, ◌≡◌};
ghost use Rattle.escrow.specs.Amounts.{part_good};
ghost use Rattle.escrow.specs.Cells.{free_in, good_in};
ghost use Rattle.escrow.specs.Inner.{debit_good};
ghost use Rattle.transactions.specs.Body.{entry_in};
ghost use Rattle.ordering.specs.Table.{Ordered, count_in, rank_in};
ghost use Rattle.settlement.specs.Cells.{rows_in};
ghost use Rattle.settlement.specs.Tables.{Settled, buffers, whole_of};
ghost use Rattle.sheets.specs.Sheet.{sheet_in};
ghost use Rattle.sums.specs.Test.{all_to};

use crate::amounts::free_of;
use fields::byte_at;
use settlement::settle::settle;
use sheets::parts::home_of;
use sheets::sheet::{Sizes, slot_of};
use transactions::lists::{account_at, amount_at, debits};

// Debit i of a list is not in instance j, or is at most the free amount of its account.
fn debit_good(
    sheet: &[u8],
    cites: &[u16],
    good: &[u8],
    z: Sizes,
    view: [u16; 16],
    table: &[u8],
    list: &[u8],
    j: u16,
    i: u8,
) -> bool
    ensures { result
        ≡ debit_good
        (sheet_in sheet.now z)
        (free_in sheet.now z cites.now good.now view table.now)
        (entry_in list.now)
        j i }
{
    let k = account_at(list, i);
    if home_of(sheet, z, k) != j {
        return true;
    }
    amount_at(list, i) as u64 <= free_of(sheet, cites, good, z, view, table, k)
}

// The first n debits of a list.
fn debits_good(
    sheet: &[u8],
    cites: &[u16],
    good: &[u8],
    z: Sizes,
    view: [u16; 16],
    table: &[u8],
    list: &[u8],
    n: u8,
    j: u16,
) -> bool
    ensures { result
        ≡ all_to n
        (debit_good (sheet_in sheet.now z) (free_in sheet.now z cites.now good.now view table.now) (entry_in list.now) j) }
{
    for i in 0..n {
        if !debit_good(sheet, cites, good, z, view, table, list, j, i) {
            return false;
        }
    }
    true
}

// Whether the part of transaction x in instance j is good in a view, by the statuses that stand in the table.
// An empty place (65535) cites no transaction of the sheet: it has no debits, and is judged good.
pub fn judge(
    sheet: &[u8],
    cites: &[u16],
    good: &[u8],
    z: Sizes,
    view: [u16; 16],
    table: &[u8],
    j: u16,
    x: u16,
) -> bool
    ensures { result ≡ good_in sheet.now z cites.now good.now view table.now j x }
{
    if z.t <= x {
        return true;
    }
    let body = slot_of(sheet, z, x);
    debits_good(
        sheet,
        cites,
        good,
        z,
        view,
        table,
        debits(body),
        byte_at(body, 1),
        j,
    )
}

// The outcome of the part of transaction x in instance j, in a view: settles the view, then judges. The buffers end as `settle` leaves them.
// An empty place (65535) is judged good, as in `judge`.
pub fn outcome(
    sheet: &[u8],
    ranks: &[u32],
    cites: &[u16],
    good: &[u8],
    z: Sizes,
    view: [u16; 16],
    counts: &mut [u32],
    table: &mut [u8],
    order: &mut [u16],
    j: u16,
    x: u16,
) -> bool
    requires { (Ordered z.m (rank_in ranks.now) (whole_of (count_in view)))
        × (2 * z.t ≤ length counts.old)
        × (z.t ≤ length table.old)
        × (128 * z.m ≤ length order.old)
        × (z.m ≤ 16)
        × (z.g ≤ 64) }
    ensures { (Settled z
        (sheet_in sheet.now z)
        (rows_in ranks.now cites.now good.now)
        (count_in view)
        (buffers counts.old table.old order.old)
        (buffers counts.new table.new order.new))
        × (result ≡ part_good (sheet_in sheet.now z) (rows_in ranks.now cites.now good.now) (count_in view) j x) }
{
    let _registers = settle(sheet, ranks, cites, good, z, view, counts, table, order);
    judge(sheet, cites, good, z, view, table, j, x)
}
