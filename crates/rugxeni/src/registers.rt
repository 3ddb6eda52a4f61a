// A reading of the full view. The call returns 0, or a refusal's number with its place in `told`.
ghost use Rattle.std.specs.Prelude.{[], ◌∷◌};
ghost use Rattle.plain.specs.Report as report;
ghost use Rattle.rugxeni.specs.Boundary.{ReadCall};
ghost use Rattle.settlement.specs.Tables.{buffers};
ghost use Rattle.state.specs.State.{kept};

use crate::numbers::ledger_in;
use crate::reading::say_reading;
use crate::replies::say_short;
use readings::registers::registers;

// The registers.
#[unsafe(no_mangle)]
pub extern "C" fn rugxeni_registers(
    numbers: &[u16],
    sheet: &[u8],
    ranks: &[u32],
    cites: &[u16],
    good: &[u8],
    counts: &mut [u32],
    table: &mut [u8],
    order: &mut [u16],
    values: &mut [u32],
    told: &mut [u64],
) -> u16
    ensures { ReadCall
        numbers.now
        (kept sheet.now ranks.now [] cites.now good.now)
        (buffers counts.old table.old order.old)
        report.registers
        (values.old ∷ [])
        told.old
        result
        (buffers counts.new table.new order.new)
        (values.new ∷ [])
        told.new }
{
    if numbers.len() < 22 {
        return say_short(told);
    }
    let answer = registers(
        ledger_in(numbers),
        sheet,
        ranks,
        cites,
        good,
        counts,
        table,
        order,
        values,
    );
    say_reading(answer, told)
}
