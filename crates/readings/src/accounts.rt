// The free and the held amount of every account.
ghost use Rattle.std.specs.Prelude.{◌≤◌, length, [], ◌∷◌, ◌≡◌};
ghost use Rattle.admission.specs.Replies.{reply_to};
ghost use Rattle.escrow.specs.Cells.{free_in, held_in};
ghost use Rattle.plain.specs.Report as report;
ghost use Rattle.readings.specs.Reading.{Reads};
ghost use Rattle.settlement.specs.Tables.{buffers};
ghost use Rattle.state.specs.State.{kept};
ghost use Rattle.sums.specs.Seq.{written};

use crate::full::full_view;
use crate::room::check_buffers;
use crate::settled::settle_full;
use escrow::amounts::{free_of, held_of};
use refusals::Refusal;
use sheets::sheet::Sizes;
use state::ledger::{Ledger, sizes};
use state::lengths::check_room;

// Writes the amounts in a view, account by account, by the statuses that stand in the table.
fn fill_accounts(
    sheet: &[u8],
    cites: &[u16],
    good: &[u8],
    z: Sizes,
    view: [u16; 16],
    table: &[u8],
    free: &mut [u64],
    held: &mut [u64],
)
    requires { (z.a ≤ length free.old) × (z.a ≤ length held.old) }
    ensures { (free.new
        ≡ written free.old 0 z.a (free_in sheet.now z cites.now good.now view table.now))
        × (held.new
        ≡ written held.old 0 z.a (held_in sheet.now z cites.now good.now view table.now)) }
{
    let a = z.a;
    for k in 0..a {
        let at = k as usize;
        free[at] = free_of(sheet, cites, good, z, view, table, k);
        held[at] = held_of(sheet, cites, good, z, view, table, k);
    }
}

// Fills `free` and `held`, from account 0 up.
pub fn accounts(
    ledger: Ledger,
    sheet: &[u8],
    ranks: &[u32],
    cites: &[u16],
    good: &[u8],
    counts: &mut [u32],
    table: &mut [u8],
    order: &mut [u16],
    free: &mut [u64],
    held: &mut [u64],
) -> Result<(), Refusal>
    ensures { Reads ledger
        (kept sheet.now ranks.now [] cites.now good.now)
        (buffers counts.old table.old order.old)
        report.accounts
        (free.old ∷ held.old ∷ [])
        (reply_to result)
        0
        (buffers counts.new table.new order.new)
        (free.new ∷ held.new ∷ []) }
{
    let z = sizes(ledger);
    let a = z.a as usize;
    check_buffers(ledger, sheet, ranks, cites, good, counts, table, order)?;
    check_room(a, free.len())?;
    check_room(a, held.len())?;
    let _registers = settle_full(ledger, sheet, ranks, cites, good, counts, table, order);
    let view = full_view(ledger, ranks);
    fill_accounts(sheet, cites, good, z, view, table, free, held);
    Ok(())
}
