// Settlement in a view: contracts, then payments.
ghost use Rattle.std.specs.Prelude.{◌*◌, ◌<◌, ◌≤◌, length, take, ◌≡◌};
ghost use Rattle.ordering.specs.Table.{Ordered, count_in, rank_in};
ghost use Rattle.settlement.specs.Cells.{rows_in};
ghost use Rattle.settlement.specs.Inner.{as_ruled, pay_at, pay_to, payment_of};
ghost use Rattle.settlement.specs.Settlement.{contracts};
ghost use Rattle.settlement.specs.Tables.{Settled, code_in, buffers, status_in, status_of, whole_of};
ghost use Rattle.sheets.specs.Sheet.{sheet_in};

use crate::contracts::settle_contracts;
use crate::counts::{count_of, count_view};
use crate::status::Status;
use fields::byte_at;
use sheets::parts::parts_of;
use sheets::sheet::{Sizes, is_contract};

// The status of x as its number in the table; 0, open, where there is no transaction x.
pub fn status_at(table: &[u8], z: Sizes, x: u16) -> u8
    ensures { (result ≡ code_in z table.now x) × (status_of result ≡ status_in z table.now x) }
{
    if x < z.t {
        byte_at(table, x as usize)
    } else {
        0
    }
}

// The status of a payment.
fn payment_of(failed: u32, cited: u32, parts: u32) -> Status
    ensures { as_ruled result ≡ payment_of failed cited parts }
{
    if failed != 0 {
        return Status::Returned;
    }
    if cited == parts {
        Status::Paid
    } else {
        Status::Open
    }
}

// Writes the status of transaction x if it is a payment.
fn pay_one(sheet: &[u8], z: Sizes, x: u16, counts: &[u32], table: &mut [u8])
    requires { (x < z.t) × (z.t ≤ length table.old) }
    ensures { table.new ≡ pay_at (sheet_in sheet.now z) counts.now x table.old }
{
    if !is_contract(sheet, z, x) {
        let at = x as usize;
        let failed = count_of(counts, 2 * at + 1);
        let cited = count_of(counts, 2 * at);
        table[at] = payment_of(failed, cited, parts_of(sheet, z, x) as u32).into();
    }
}

// All payments.
fn pay_all(sheet: &[u8], z: Sizes, counts: &[u32], table: &mut [u8])
    requires { z.t ≤ length table.old }
    ensures { table.new ≡ pay_to (sheet_in sheet.now z) counts.now z.t table.old }
{
    for x in 0..z.t {
        pay_one(sheet, z, x, counts, table);
    }
}

// Settles a view: the status of every transaction into the table, the view's log into the order, and its registers, which are
// returned: the first g of 64 cells, of which the others mean nothing. The counts end as the view's tallies. What each buffer has
// past its own part is as it was.
pub fn settle(
    sheet: &[u8],
    ranks: &[u32],
    cites: &[u16],
    good: &[u8],
    z: Sizes,
    view: [u16; 16],
    counts: &mut [u32],
    table: &mut [u8],
    order: &mut [u16],
) -> [u32; 64]
    requires { (Ordered z.m (rank_in ranks.now) (whole_of (count_in view)))
        × (2 * z.t ≤ length counts.old)
        × (z.t ≤ length table.old)
        × (128 * z.m ≤ length order.old)
        × (z.m ≤ 16)
        × (z.g ≤ 64) }
    ensures { (Settled z
        (sheet_in sheet.now z)
        (rows_in ranks.now cites.now good.now)
        (count_in view)
        (buffers counts.old table.old order.old)
        (buffers counts.new table.new order.new))
        × (take z.g result
        ≡ (contracts
        (sheet_in sheet.now z)
        (rows_in ranks.now cites.now good.now)
        (count_in view)
        ).registers) }
{
    let registers = settle_contracts(sheet, ranks, cites, good, z, view, counts, table, order);
    counts[..2 * usize::from(z.t)].fill(0);
    count_view(cites, good, z.m, z.t, view, counts);
    pay_all(sheet, z, counts, table);
    registers
}
