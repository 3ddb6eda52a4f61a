// The settlement of the full view.
ghost use Rattle.std.specs.Prelude.{[], ◌≡◌};
ghost use Rattle.plain.specs.Answer.{accepted};
ghost use Rattle.readings.specs.Inner.{SettlesFull, settling_answer};
ghost use Rattle.settlement.specs.Tables.{buffers};
ghost use Rattle.state.specs.State.{kept};

use crate::full::full_view;
use settlement::settle::settle;
use state::ledger::{Ledger, sizes};

// Settles it into the working buffers, and returns its registers: the first g of 64 cells; the others mean nothing.
pub fn settle_full(
    ledger: Ledger,
    sheet: &[u8],
    ranks: &[u32],
    cites: &[u16],
    good: &[u8],
    counts: &mut [u32],
    table: &mut [u8],
    order: &mut [u16],
) -> [u32; 64]
    requires { settling_answer ledger (kept sheet.now ranks.now [] cites.now good.now) (buffers counts.old table.old order.old) ≡ accepted }
    ensures { SettlesFull ledger
        (kept sheet.now ranks.now [] cites.now good.now)
        (buffers counts.old table.old order.old)
        result
        (buffers counts.new table.new order.new) }
{
    let z = sizes(ledger);
    let view = full_view(ledger, ranks);
    settle(sheet, ranks, cites, good, z, view, counts, table, order)
}
