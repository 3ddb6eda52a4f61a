// Contracts, run in log order (document 01, "Settlement in a view").
ghost use Rattle.std.specs.Prelude.{◌*◌, ◌<◌, ◌≤◌, ℕ, length, List, [], map, ◌≡◌};
ghost use Rattle.ordering.specs.Table.{Ordered, block_id, count_in, rank_in, ref_in};
ghost use Rattle.settlement.specs.Cells.{rows_in};
ghost use Rattle.settlement.specs.Books.{Book, counted, run_all};
ghost use Rattle.settlement.specs.Inner.{Holds, event_of, settled_if};
ghost use Rattle.settlement.specs.Settlement.{contracts};
ghost use Rattle.settlement.specs.Tables.{whole_of};
ghost use Rattle.settlement.specs.View.{block_events, log_events, view_log};
ghost use Rattle.sheets.specs.Sheet.{sheet_in};
ghost use Rattle.sums.specs.Seq.{fill};

use crate::counts::{count_of, count_one};
use crate::rows::{cite_at, good_at};
use crate::status::Status;
use sheets::operations::run;
use sheets::parts::parts_of;
use sheets::sheet::{Sizes, is_contract};

// Settles the contract x if all its parts were seen.
fn settle_one(
    sheet: &[u8],
    z: Sizes,
    x: u16,
    counts: &[u32],
    table: &mut [u8],
    registers: [u32; 64],
) -> [u32; 64]
    requires { (x < z.t) × (z.t ≤ length table.old) }
    ensures { (c₀ t₀ : List ℕ) (s : Book)
        → Holds z c₀ t₀ s counts.now table.old registers
        → Holds z c₀ t₀ (settled_if (sheet_in sheet.now z) s x) counts.now table.new result }
{
    let at = x as usize;
    if count_of(counts, 2 * at) != parts_of(sheet, z, x) as u32 {
        return registers;
    }
    if count_of(counts, 2 * at + 1) != 0 {
        table[at] = u8::from(Status::Returned);
        return registers;
    }
    let ran = run(sheet, z, x, registers);
    if !ran.passes {
        table[at] = u8::from(Status::Returned);
        return registers;
    }
    table[at] = u8::from(Status::Paid);
    ran.registers
}

// Books a citation of the contract x: counts it, and settles x if it was the last.
fn book(
    sheet: &[u8],
    z: Sizes,
    x: u16,
    good: bool,
    counts: &mut [u32],
    table: &mut [u8],
    registers: [u32; 64],
) -> [u32; 64]
    requires { (x < z.t) × (2 * z.t ≤ length counts.old) × (z.t ≤ length table.old) }
    ensures { (c₀ t₀ : List ℕ) (s : Book)
        → Holds z c₀ t₀ s counts.old table.old registers
        → Holds z c₀ t₀ (settled_if (sheet_in sheet.now z) (counted s (event_of x good)) x) counts.new table.new result }
{
    count_one(counts, x, good);
    settle_one(sheet, z, x, counts, table, registers)
}

// The block with the id b. Places that cite no contract, empty ones too, are passed over.
fn run_block(
    sheet: &[u8],
    cites: &[u16],
    good: &[u8],
    z: Sizes,
    b: u16,
    counts: &mut [u32],
    table: &mut [u8],
    registers: [u32; 64],
) -> [u32; 64]
    requires { (2 * z.t ≤ length counts.old) × (z.t ≤ length table.old) }
    ensures { (c₀ t₀ : List ℕ) (s : Book)
        → Holds z c₀ t₀ s counts.old table.old registers
        → Holds z c₀ t₀
        (run_all (sheet_in sheet.now z) s (block_events (rows_in [] cites.now good.now) (ref_in b)))
        counts.new
        table.new
        result }
{
    let j = b / 128;
    let from = b % 128 * 32;
    let mut cells = registers;
    for q in 0..32u16 {
        let p = from + q;
        let x = cite_at(cites, j, p);
        if !is_contract(sheet, z, x) {
            continue;
        }
        let next = book(sheet, z, x, good_at(good, j, p), counts, table, cells);
        cells = next;
    }
    cells
}

// The blocks of a list of ids.
fn run_log(
    sheet: &[u8],
    cites: &[u16],
    good: &[u8],
    z: Sizes,
    order: &[u16],
    counts: &mut [u32],
    table: &mut [u8],
    registers: [u32; 64],
) -> [u32; 64]
    requires { (2 * z.t ≤ length counts.old) × (z.t ≤ length table.old) }
    ensures { (c₀ t₀ : List ℕ) (s : Book)
        → Holds z c₀ t₀ s counts.old table.old registers
        → Holds z c₀ t₀
        (run_all (sheet_in sheet.now z) s (log_events (rows_in [] cites.now good.now) (map ref_in order.now)))
        counts.new
        table.new
        result }
{
    let mut cells = registers;
    for b in order {
        let next = run_block(sheet, cites, good, z, *b, counts, table, cells);
        cells = next;
    }
    cells
}

// The whole blocks of a view.
fn whole(view: [u16; 16]) -> [u16; 16]
    ensures { count_in result ≡ whole_of (count_in view) }
{
    view.map(|places| places / 32)
}

// The contracts of a view: their statuses in the table, and the registers.
pub fn settle_contracts(
    sheet: &[u8],
    ranks: &[u32],
    cites: &[u16],
    good: &[u8],
    z: Sizes,
    view: [u16; 16],
    counts: &mut [u32],
    table: &mut [u8],
    order: &mut [u16],
) -> [u32; 64]
    requires { (Ordered z.m (rank_in ranks.now) (whole_of (count_in view)))
        × (2 * z.t ≤ length counts.old)
        × (z.t ≤ length table.old)
        × (128 * z.m ≤ length order.old)
        × (z.m ≤ 16)
        × (z.g ≤ 64) }
    ensures { (Holds z
        counts.old
        table.old
        (contracts (sheet_in sheet.now z) (rows_in ranks.now cites.now good.now) (count_in view))
        counts.new
        table.new
        result)
        × (order.new
        ≡ fill
        (map block_id (view_log (sheet_in sheet.now z) (rows_in ranks.now cites.now good.now) (count_in view)))
        order.old) }
{
    let t = usize::from(z.t);
    counts[..2 * t].fill(0);
    table[..t].fill(0);
    let n = ordering::global_log(z.m, ranks, whole(view), order);
    run_log(
        sheet,
        cites,
        good,
        z,
        &order[..n],
        counts,
        table,
        [0u32; 64],
    )
}
