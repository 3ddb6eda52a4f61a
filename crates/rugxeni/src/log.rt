// A reading of the full view. The call returns 0, or a refusal's number with its place in `told`.
ghost use Rattle.std.specs.Prelude.{[], ◌∷◌};
ghost use Rattle.plain.specs.Report as report;
ghost use Rattle.rugxeni.specs.Boundary.{ReadCall};
ghost use Rattle.settlement.specs.Tables.{buffers};
ghost use Rattle.state.specs.State.{kept};

use crate::numbers::ledger_in;
use crate::reading::say_number;
use crate::replies::say_short;
use readings::log::log;

// The global log, as instances and sequence numbers; its length is the second number told.
#[unsafe(no_mangle)]
pub extern "C" fn rugxeni_log(
    numbers: &[u16],
    ranks: &[u32],
    instances: &mut [u16],
    sequences: &mut [u16],
    told: &mut [u64],
) -> u16
    ensures { ReadCall
        numbers.now
        (kept [] ranks.now [] [] [])
        (buffers [] [] [])
        report.log
        (instances.old ∷ sequences.old ∷ [])
        told.old
        result
        (buffers [] [] [])
        (instances.new ∷ sequences.new ∷ [])
        told.new }
{
    if numbers.len() < 22 {
        return say_short(told);
    }
    let done = log(ledger_in(numbers), ranks, instances, sequences);
    say_number(done, told)
}
