// The share of settled transactions.
ghost use Rattle.std.specs.Prelude.{[]};
ghost use Rattle.std.specs.Result.{result_unwrap_or};
ghost use Rattle.admission.specs.Replies.{reply_to};
ghost use Rattle.plain.specs.Report as report;
ghost use Rattle.readings.specs.Reading.{Reads};
ghost use Rattle.settlement.specs.Tables.{buffers};
ghost use Rattle.state.specs.State.{kept};

use crate::room::check_buffers;
use crate::settled::settle_full;
use escrow::share::share_of;
use refusals::Refusal;
use state::ledger::{Ledger, sizes};

// Tells it in thousandths, to the nearest and a tie to the even figure; 1000 where there is no transaction.
pub fn share(
    ledger: Ledger,
    sheet: &[u8],
    ranks: &[u32],
    cites: &[u16],
    good: &[u8],
    counts: &mut [u32],
    table: &mut [u8],
    order: &mut [u16],
) -> Result<u32, Refusal>
    ensures { Reads ledger
        (kept sheet.now ranks.now [] cites.now good.now)
        (buffers counts.old table.old order.old)
        report.share []
        (reply_to result)
        (result_unwrap_or result 0)
        (buffers counts.new table.new order.new)
        [] }
{
    check_buffers(ledger, sheet, ranks, cites, good, counts, table, order)?;
    let _registers = settle_full(ledger, sheet, ranks, cites, good, counts, table, order);
    Ok(share_of(table, sizes(ledger)))
}
