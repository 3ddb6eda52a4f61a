// The part outcomes of a stored block: each is judged in its citation's view, and kept.
ghost use Rattle.std.specs.Prelude.{◌*◌, ◌+◌, ◌/◌, ◌<◌, ◌≤◌, ℕ, ◌≡◌};
ghost use Rattle.sheets.specs.Sheet.{sheet_in};
ghost use Rattle.acceptance.specs.Judging.{Judgeable, good_at, judged_good, view_by};
ghost use Rattle.state.specs.State.{Beyond};
ghost use Rattle.settlement.specs.Tables.{buffers};
ghost use Rattle.ordering.specs.Table.{count_in};
ghost use Rattle.sums.specs.Fold.{fold_to};
ghost use Rattle.sums.specs.Test.{bit};

use escrow::outcome::outcome;
use fields::put_byte;
use ordering::count_at;
use settlement::rows::cite_at;
use sheets::sheet::Sizes;

// How many places of instance j are in the view of place p of instance i.
fn places_of(cut: [u16; 16], i: u16, p: u16, j: u16) -> u16
    requires { count_in cut j ≤ 128 }
    ensures { result ≡ view_by (count_in cut) i p j }
{
    if j == i { p } else { count_at(cut, j) * 32 }
}

// The view of place p of instance i, by its block's cut.
fn view_of(cut: [u16; 16], i: u16, p: u16) -> [u16; 16]
    requires { (i < 16) × ((j : ℕ) → count_in cut j ≤ 128) }
    ensures { count_in result ≡ view_by (count_in cut) i p }
{
    let mut view = [0u16; 16];
    for j in 0..16u16 {
        let at = j as usize;
        view[at] = places_of(cut, i, p, j);
    }
    view
}

// Whether the part cited at place p of instance i is good in its view. An empty place has no debits, and so is good.
fn part_good(
    sheet: &[u8],
    ranks: &[u32],
    cites: &[u16],
    good: &[u8],
    z: Sizes,
    cut: [u16; 16],
    i: u16,
    p: u16,
    counts: &mut [u32],
    table: &mut [u8],
    order: &mut [u16],
) -> bool
    requires { Judgeable z ranks.now cut i (p / 32) (buffers counts.old table.old order.old) }
    ensures { (result ≡ good_at (sheet_in sheet.now z) ranks.now cites.now cut i p good.now)
        × Beyond z
        (buffers counts.old table.old order.old)
        (buffers counts.new table.new order.new) }
{
    let x = cite_at(cites, i, p);
    if z.t <= x {
        return true;
    }
    let view = view_of(cut, i, p);
    outcome(
        sheet, ranks, cites, good, z, view, counts, table, order, i, x,
    )
}

// Judges place p of instance i, and keeps the outcome.
fn judge_place(
    sheet: &[u8],
    ranks: &[u32],
    cites: &[u16],
    good: &mut [u8],
    z: Sizes,
    cut: [u16; 16],
    i: u16,
    p: u16,
    counts: &mut [u32],
    table: &mut [u8],
    order: &mut [u16],
)
    requires { Judgeable z ranks.now cut i (p / 32) (buffers counts.old table.old order.old) }
    ensures { (good.new ≡ judged_good (sheet_in sheet.now z) ranks.now cites.now cut i p good.old)
        × Beyond z
        (buffers counts.old table.old order.old)
        (buffers counts.new table.new order.new) }
{
    let fine = part_good(
        sheet, ranks, cites, good, z, cut, i, p, counts, table, order,
    );
    put_byte(good, (i as usize) * 4096 + (p as usize), u8::from(fine));
}

// Judges the 32 places of block h of instance i, one after the other.
pub fn judge_block(
    sheet: &[u8],
    ranks: &[u32],
    cites: &[u16],
    good: &mut [u8],
    z: Sizes,
    cut: [u16; 16],
    i: u16,
    h: u16,
    counts: &mut [u32],
    table: &mut [u8],
    order: &mut [u16],
)
    requires { (h < 128) × Judgeable z ranks.now cut i h (buffers counts.old table.old order.old) }
    ensures { (good.new
        ≡ fold_to 32
        (λ q. judged_good (sheet_in sheet.now z) ranks.now cites.now cut i (h * 32 + q))
        good.old)
        × Beyond z
        (buffers counts.old table.old order.old)
        (buffers counts.new table.new order.new) }
{
    for q in 0..32u16 {
        judge_place(
            sheet,
            ranks,
            cites,
            good,
            z,
            cut,
            i,
            h * 32 + q,
            counts,
            table,
            order,
        );
    }
}
