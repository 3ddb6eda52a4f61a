// A reading of the full view. The call returns 0, or a refusal's number with its place in `told`.
ghost use Rattle.std.specs.Prelude.{[]};
ghost use Rattle.plain.specs.Report as report;
ghost use Rattle.rugxeni.specs.Boundary.{ReadCall};
ghost use Rattle.settlement.specs.Tables.{buffers};
ghost use Rattle.state.specs.State.{kept};

use crate::numbers::ledger_in;
use crate::reading::say_number;
use crate::replies::say_short;
use readings::share::share;

// The share as the second number told: settled transactions in thousandths of all, to the nearest and a tie to the even figure; 1000 where there are none.
#[unsafe(no_mangle)]
pub extern "C" fn rugxeni_share(
    numbers: &[u16],
    sheet: &[u8],
    ranks: &[u32],
    cites: &[u16],
    good: &[u8],
    counts: &mut [u32],
    table: &mut [u8],
    order: &mut [u16],
    told: &mut [u64],
) -> u16
    ensures { ReadCall
        numbers.now
        (kept sheet.now ranks.now [] cites.now good.now)
        (buffers counts.old table.old order.old)
        report.share
        []
        told.old
        result
        (buffers counts.new table.new order.new)
        []
        told.new }
{
    if numbers.len() < 22 {
        return say_short(told);
    }
    let done = share(
        ledger_in(numbers),
        sheet,
        ranks,
        cites,
        good,
        counts,
        table,
        order,
    );
    say_number(done, told)
}
