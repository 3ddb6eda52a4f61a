// The refusals of a call for a reading: 3 before the sheet is complete, then 16 at the first buffer that is short.
ghost use Rattle.std.specs.Prelude.{ltb, not, [], ◌≡◌};
ghost use Rattle.admission.specs.Replies.{reply_to};
ghost use Rattle.plain.specs.Answer.{◌then◌, refuse};
ghost use Rattle.readings.specs.Inner.{settling_answer};
ghost use Rattle.settlement.specs.Tables.{buffers};
ghost use Rattle.state.specs.State.{complete, kept};

use refusals::Refusal;
use state::ledger::{Ledger, is_complete};
use state::lengths::{Lengths, check_lengths, least_lengths};

// Refusal 3, with place 0.
pub fn check_complete(ledger: Ledger) -> Result<(), Refusal>
    ensures { reply_to result ≡ refuse (not (complete ledger)) 3 0 }
{
    if is_complete(ledger) {
        Ok(())
    } else {
        Err(Refusal::KindNotDue(0))
    }
}

// The refusals of a call that settles the full view, up to the lists that it fills.
// Such a call lends no cuts, since nothing of a full view reads them: they count as long enough.
pub fn check_buffers(
    ledger: Ledger,
    sheet: &[u8],
    ranks: &[u32],
    cites: &[u16],
    good: &[u8],
    counts: &[u32],
    table: &[u8],
    order: &[u16],
) -> Result<(), Refusal>
    ensures { reply_to result
        ≡ settling_answer ledger
        (kept sheet.now ranks.now [] cites.now good.now)
        (buffers counts.now table.now order.now) }
{
    if !is_complete(ledger) {
        return Err(Refusal::KindNotDue(0));
    }
    let least = least_lengths(ledger);
    let lent = Lengths {
        sheet: sheet.len(),
        ranks: ranks.len(),
        cuts: least.cuts,
        cites: cites.len(),
        good: good.len(),
        counts: counts.len(),
        table: table.len(),
        order: order.len(),
    };
    check_lengths(least, lent)
}
