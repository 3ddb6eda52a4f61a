// The answer to an offer, before anything is written: every refusal of document 01's table, in its order.
ghost use Rattle.std.specs.Prelude.{[], ◌≡◌};
ghost use Rattle.admission.specs.Citing.{values_of, values_with};
ghost use Rattle.admission.specs.Replies.{reply_to};
ghost use Rattle.state.specs.Cells.{past_in};
ghost use Rattle.state.specs.Lengths.{needs_list};
ghost use Rattle.offers.specs.Offering.{answer_from, reply_of};
ghost use Rattle.state.specs.State.{cells_of, kept, sheet_of};
ghost use Rattle.plain.specs.Offers.{values};
ghost use Rattle.plain.specs.Plain.{block_answer};

use admission::block::{check_block, check_values};
use admission::citations::{Citations, citations_of};
use frames::block::Block;
use ordering::usable_counts;
use refusals::Refusal;
use state::ledger::{Ledger, is_complete, sizes};
use state::lengths::{Lengths, check_lengths, least_lengths};

// Refusals 8, 17 and 9 to 15 of a block on a complete sheet.
pub fn block_verdict(
    ledger: Ledger,
    sheet: &[u8],
    ranks: &[u32],
    cuts: &[u16],
    cites: &[u16],
    block: Block,
    list: Citations,
) -> Result<(), Refusal>
    ensures { reply_to result
        ≡ block_answer
        (sheet_of ledger (kept sheet.now ranks.now cuts.now cites.now []))
        (past_in (cells_of ledger (kept sheet.now ranks.now cuts.now cites.now [])))
        (values_of block list) }
{
    let old = ledger.heights;
    let heights = usable_counts(ranks, old);
    check_block(
        sheet,
        sizes(ledger),
        heights,
        ranks,
        cuts,
        cites,
        block,
        list,
    )
}

// The answer to a block's values, where buffers of the lengths `lent` are lent.
pub fn values_verdict(
    ledger: Ledger,
    lent: Lengths,
    sheet: &[u8],
    ranks: &[u32],
    cuts: &[u16],
    cites: &[u16],
    block: Block,
    citations: &[u16],
) -> Result<(), Refusal>
    ensures { reply_to result
        ≡ answer_from ledger
        (kept sheet.now ranks.now cuts.now cites.now [])
        (values (needs_list lent) (values_with block citations.now)) }
{
    check_lengths(least_lengths(ledger), lent)?;
    if !is_complete(ledger) {
        return Err(Refusal::KindNotDue(0));
    }
    let cut = block.cut;
    check_values(ledger.loading.m, cut, citations.len())?;
    block_verdict(
        ledger,
        sheet,
        ranks,
        cuts,
        cites,
        block,
        citations_of(citations),
    )
}
