// The registers.
ghost use Rattle.std.specs.Prelude.{◌≤◌, get_or, length, [], ◌∷◌, ◌≡◌};
ghost use Rattle.admission.specs.Replies.{reply_to};
ghost use Rattle.plain.specs.Report as report;
ghost use Rattle.readings.specs.Reading.{Reads};
ghost use Rattle.settlement.specs.Tables.{buffers};
ghost use Rattle.state.specs.State.{kept};
ghost use Rattle.sums.specs.Seq.{written};

use crate::room::check_buffers;
use crate::settled::settle_full;
use refusals::Refusal;
use state::ledger::{Ledger, sizes};
use state::lengths::check_room;

// Writes the first g of the values.
fn fill_registers(values: [u32; 64], g: u16, registers: &mut [u32])
    requires { (g ≤ 64) × (g ≤ length registers.old) }
    ensures { registers.new ≡ written registers.old 0 g (λ j. get_or values j 0) }
{
    let n = g as usize;
    for j in 0..n {
        registers[j] = values[j];
    }
}

// Fills `registers`, from register 0 up.
pub fn registers(
    ledger: Ledger,
    sheet: &[u8],
    ranks: &[u32],
    cites: &[u16],
    good: &[u8],
    counts: &mut [u32],
    table: &mut [u8],
    order: &mut [u16],
    registers: &mut [u32],
) -> Result<(), Refusal>
    ensures { Reads ledger
        (kept sheet.now ranks.now [] cites.now good.now)
        (buffers counts.old table.old order.old)
        report.registers
        (registers.old ∷ [])
        (reply_to result)
        0
        (buffers counts.new table.new order.new)
        (registers.new ∷ []) }
{
    let z = sizes(ledger);
    check_buffers(ledger, sheet, ranks, cites, good, counts, table, order)?;
    check_room(z.g as usize, registers.len())?;
    let values = settle_full(ledger, sheet, ranks, cites, good, counts, table, order);
    fill_registers(values, z.g, registers);
    Ok(())
}
