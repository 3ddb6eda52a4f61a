// The global log of the full view.
ghost use Rattle.std.specs.Prelude.{◌+◌, ◌≤◌, get_or, length, [], ◌∷◌, ◌≡◌};
ghost use Rattle.std.specs.Result.{result_unwrap_or};
ghost use Rattle.admission.specs.Replies.{reply_to};
ghost use Rattle.ordering.specs.Table.{ref_in};
ghost use Rattle.plain.specs.Report as report;
ghost use Rattle.readings.specs.Reading.{Reads};
ghost use Rattle.settlement.specs.Tables.{buffers};
ghost use Rattle.state.specs.State.{kept};
ghost use Rattle.sums.specs.Seq.{written};

use crate::room::check_complete;
use ordering::view_log;
use refusals::Refusal;
use state::ledger::Ledger;
use state::lengths::check_room;

// Writes the first n blocks of an order, each as its instance and its sequence number.
fn fill_log(order: &[u16], n: usize, instances: &mut [u16], numbers: &mut [u16])
    requires { (n ≤ length order.now) × (n ≤ length instances.old) × (n ≤ length numbers.old) }
    ensures { (instances.new ≡ written instances.old 0 n (λ k. (ref_in (get_or order.now k 0)).instance))
        × (numbers.new ≡ written numbers.old 0 n (λ k. (ref_in (get_or order.now k 0)).index + 1)) }
{
    for k in 0..n {
        let block = order[k];
        instances[k] = block / 128;
        numbers[k] = block % 128 + 1;
    }
}

// Fills `instances` and `numbers` in log order, and tells how many blocks the log has.
// 16 instances of 128 blocks are the most that a sheet allows: the log is written aside first, since its length decides about refusal 16.
pub fn log(
    ledger: Ledger,
    ranks: &[u32],
    instances: &mut [u16],
    numbers: &mut [u16],
) -> Result<u32, Refusal>
    ensures { Reads ledger
        (kept [] ranks.now [] [] [])
        (buffers [] [] [])
        report.log
        (instances.old ∷ numbers.old ∷ [])
        (reply_to result)
        (result_unwrap_or result 0)
        (buffers [] [] [])
        (instances.new ∷ numbers.new ∷ []) }
{
    let loading = ledger.loading;
    let heights = ledger.heights;
    let mut order = [0u16; 2048];
    let n = view_log(loading.m, ranks, heights, &mut order);
    check_complete(ledger)?;
    check_room(128 * (loading.m as usize), ranks.len())?;
    check_room(n, instances.len())?;
    check_room(n, numbers.len())?;
    fill_log(&order, n, instances, numbers);
    Ok(n as u32)
}
