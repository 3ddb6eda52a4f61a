// The reading of a run as text, in one call.
ghost use Rattle.rugxeni.specs.Boundary.{ReportCall};
ghost use Rattle.settlement.specs.Tables.{buffers};
ghost use Rattle.state.specs.State.{kept};

use crate::replies::say_length;
use report::report::report_run;

// What `readrun` prints of a run, written to the front of `out`. Returns 0, and in `told` the text's length; or 16, and the
// least length of the first short buffer, nothing being written. The buffers are as long as the largest sheet needs them, and
// `out` has 262,144 places. They hold a ledger of the call's own: whoever keeps a ledger lends others.
#[unsafe(no_mangle)]
pub extern "C" fn rugxeni_report(
    run: &[u8],
    sheet: &mut [u8],
    ranks: &mut [u32],
    cuts: &mut [u16],
    cites: &mut [u16],
    good: &mut [u8],
    counts: &mut [u32],
    table: &mut [u8],
    order: &mut [u16],
    out: &mut [u8],
    told: &mut [u64],
) -> u16
    ensures { ReportCall
        run.now
        (kept sheet.old ranks.old cuts.old cites.old good.old)
        (buffers counts.old table.old order.old)
        out.old
        told.old
        result
        (kept sheet.new ranks.new cuts.new cites.new good.new)
        (buffers counts.new table.new order.new)
        out.new
        told.new }
{
    let done = report_run(
        run, sheet, ranks, cuts, cites, good, counts, table, order, out,
    );
    say_length(done, told)
}
