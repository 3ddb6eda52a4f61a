// A reading of the full view. The call returns 0, or a refusal's number with its place in `told`.
ghost use Rattle.std.specs.Prelude.{[], ◌∷◌};
ghost use Rattle.plain.specs.Report as report;
ghost use Rattle.rugxeni.specs.Boundary.{ReadCall};
ghost use Rattle.settlement.specs.Tables.{buffers};
ghost use Rattle.state.specs.State.{kept};

use crate::numbers::ledger_in;
use crate::reading::say_reading;
use crate::replies::say_short;
use readings::settlements::settlements;

// The settlement of every transaction: 0 open, 1 paid, 2 returned.
#[unsafe(no_mangle)]
pub extern "C" fn rugxeni_settlements(
    numbers: &[u16],
    sheet: &[u8],
    ranks: &[u32],
    cites: &[u16],
    good: &[u8],
    counts: &mut [u32],
    table: &mut [u8],
    order: &mut [u16],
    statuses: &mut [u8],
    told: &mut [u64],
) -> u16
    ensures { ReadCall
        numbers.now
        (kept sheet.now ranks.now [] cites.now good.now)
        (buffers counts.old table.old order.old)
        report.settlements
        (statuses.old ∷ [])
        told.old
        result
        (buffers counts.new table.new order.new)
        (statuses.new ∷ [])
        told.new }
{
    if numbers.len() < 22 {
        return say_short(told);
    }
    let answer = settlements(
        ledger_in(numbers),
        sheet,
        ranks,
        cites,
        good,
        counts,
        table,
        order,
        statuses,
    );
    say_reading(answer, told)
}
