// The call for the reading of a run as text.
ghost use Rattle.std.specs.Prelude.{length, [], ◌++◌, ◌∷◌, ◌≡◌};
ghost use Rattle.std.specs.Result.{result_unwrap_or};
ghost use Rattle.admission.specs.Replies.{reply_to};
ghost use Rattle.plain.specs.Plain.{lent_answer};
ghost use Rattle.report.specs.Reports.{Reports, report_needs};
ghost use Rattle.settlement.specs.Tables.{buffers};
ghost use Rattle.state.specs.Lengths.{needs_list};
ghost use Rattle.state.specs.State.{kept};

use crate::whole::put_within;
use refusals::Refusal;
use state::lengths::{Lengths, check_lengths, check_room};

// Refusal 16 at the first buffer that is shorter than the largest sheet and the longest text need.
fn check_lent(lent: Lengths, out: usize) -> Result<(), Refusal>
    ensures { reply_to result ≡ lent_answer report_needs (needs_list lent ++ (out ∷ [])) }
{
    let most = Lengths {
        sheet: 110592,
        ranks: 2048,
        cuts: 32768,
        cites: 65536,
        good: 65536,
        counts: 2048,
        table: 1024,
        order: 2048,
    };
    check_lengths(most, lent)?;
    check_room(262144, out)
}

// Returns the length of the text.
pub fn report_run(
    run: &[u8],
    sheet: &mut [u8],
    ranks: &mut [u32],
    cuts: &mut [u16],
    cites: &mut [u16],
    good: &mut [u8],
    counts: &mut [u32],
    table: &mut [u8],
    order: &mut [u16],
    out: &mut [u8],
) -> Result<usize, Refusal>
    ensures { Reports
        run.now
        (kept sheet.old ranks.old cuts.old cites.old good.old)
        (buffers counts.old table.old order.old)
        out.old
        (reply_to result)
        (result_unwrap_or result 0)
        (kept sheet.new ranks.new cuts.new cites.new good.new)
        (buffers counts.new table.new order.new)
        out.new }
{
    let lent = Lengths {
        sheet: sheet.len(),
        ranks: ranks.len(),
        cuts: cuts.len(),
        cites: cites.len(),
        good: good.len(),
        counts: counts.len(),
        table: table.len(),
        order: order.len(),
    };
    check_lent(lent, out.len())?;
    Ok(put_within(
        run, sheet, ranks, cuts, cites, good, counts, table, order, out,
    ))
}
