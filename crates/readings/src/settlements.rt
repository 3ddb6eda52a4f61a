// The settlement of every transaction: 0 open, 1 paid, 2 returned.
ghost use Rattle.std.specs.Prelude.{◌≤◌, get_or, length, [], ◌∷◌, ◌≡◌};
ghost use Rattle.admission.specs.Replies.{reply_to};
ghost use Rattle.plain.specs.Report as report;
ghost use Rattle.readings.specs.Reading.{Reads};
ghost use Rattle.settlement.specs.Tables.{buffers};
ghost use Rattle.state.specs.State.{kept};
ghost use Rattle.sums.specs.Seq.{written};

use crate::room::check_buffers;
use crate::settled::settle_full;
use fields::byte_at;
use refusals::Refusal;
use state::ledger::{Ledger, sizes};
use state::lengths::check_room;

// Writes the first t statuses of the table.
fn fill_statuses(table: &[u8], t: u16, statuses: &mut [u8])
    requires { t ≤ length statuses.old }
    ensures { statuses.new ≡ written statuses.old 0 t (λ x. get_or table.now x 0) }
{
    let n = t as usize;
    for x in 0..n {
        statuses[x] = byte_at(table, x);
    }
}

// Fills `statuses`, from transaction 0 up.
pub fn settlements(
    ledger: Ledger,
    sheet: &[u8],
    ranks: &[u32],
    cites: &[u16],
    good: &[u8],
    counts: &mut [u32],
    table: &mut [u8],
    order: &mut [u16],
    statuses: &mut [u8],
) -> Result<(), Refusal>
    ensures { Reads ledger
        (kept sheet.now ranks.now [] cites.now good.now)
        (buffers counts.old table.old order.old)
        report.settlements
        (statuses.old ∷ [])
        (reply_to result)
        0
        (buffers counts.new table.new order.new)
        (statuses.new ∷ []) }
{
    let z = sizes(ledger);
    check_buffers(ledger, sheet, ranks, cites, good, counts, table, order)?;
    check_room(z.t as usize, statuses.len())?;
    let _registers = settle_full(ledger, sheet, ranks, cites, good, counts, table, order);
    fill_statuses(table, z.t, statuses);
    Ok(())
}
