// Offers of blocks: answered as the plain ledger answers, and taken where no refusal applies.
ghost use Rattle.admission.specs.Citing.{values_with};
ghost use Rattle.offers.specs.Offering.{Offers};
ghost use Rattle.plain.specs.Offers as offers;
ghost use Rattle.plain.specs.Offers.{values};
ghost use Rattle.settlement.specs.Tables.{buffers};
ghost use Rattle.state.specs.State.{kept, lengths_of};

use crate::answer::{Answer, Offered};
use crate::frame_verdict::frame_verdict;
use crate::verdict::values_verdict;
use acceptance::accept::take_block;
use admission::citations::{citations_in, citations_of};
use frames::block::{Block, block_of};
use frames::frame::body;
use state::ledger::Ledger;
use state::lengths::Lengths;

// A block's values are offered.
pub fn offer_block(
    ledger: Ledger,
    sheet: &[u8],
    ranks: &mut [u32],
    cuts: &mut [u16],
    cites: &mut [u16],
    good: &mut [u8],
    counts: &mut [u32],
    table: &mut [u8],
    order: &mut [u16],
    block: Block,
    citations: &[u16],
) -> Offered
    ensures { Offers ledger
        (kept sheet.now ranks.old cuts.old cites.old good.old)
        (buffers counts.old table.old order.old)
        (values (lengths_of (kept sheet.now ranks.old cuts.old cites.old good.old) (buffers counts.old table.old order.old)) (values_with block citations.now))
        result
        (kept sheet.now ranks.new cuts.new cites.new good.new)
        (buffers counts.new table.new order.new) }
{
    let lent = Lengths {
        sheet: sheet.len(),
        ranks: ranks.len(),
        cuts: cuts.len(),
        cites: cites.len(),
        good: good.len(),
        counts: counts.len(),
        table: table.len(),
        order: order.len(),
    };
    let verdict = values_verdict(ledger, lent, sheet, ranks, cuts, cites, block, citations);
    let answer = Answer::from(verdict);
    if !answer.is_accepted() {
        return Offered { answer, ledger };
    }
    let taken = take_block(
        ledger,
        sheet,
        ranks,
        cuts,
        cites,
        good,
        counts,
        table,
        order,
        block,
        citations_of(citations),
    );
    Offered {
        answer,
        ledger: taken,
    }
}

// The frame at an offset is offered.
pub fn offer_frame(
    ledger: Ledger,
    sheet: &[u8],
    ranks: &mut [u32],
    cuts: &mut [u16],
    cites: &mut [u16],
    good: &mut [u8],
    counts: &mut [u32],
    table: &mut [u8],
    order: &mut [u16],
    bytes: &[u8],
    at: usize,
) -> Offered
    ensures { Offers ledger
        (kept sheet.now ranks.old cuts.old cites.old good.old)
        (buffers counts.old table.old order.old)
        (offers.frame (lengths_of (kept sheet.now ranks.old cuts.old cites.old good.old) (buffers counts.old table.old order.old)) bytes.now at)
        result
        (kept sheet.now ranks.new cuts.new cites.new good.new)
        (buffers counts.new table.new order.new) }
{
    let lent = Lengths {
        sheet: sheet.len(),
        ranks: ranks.len(),
        cuts: cuts.len(),
        cites: cites.len(),
        good: good.len(),
        counts: counts.len(),
        table: table.len(),
        order: order.len(),
    };
    let verdict = frame_verdict(ledger, lent, sheet, ranks, cuts, cites, bytes, at);
    if !verdict.is_accepted() {
        return Offered {
            answer: verdict,
            ledger,
        };
    }
    let content = body(bytes, at);
    let m = ledger.loading.m;
    let after = take_block(
        ledger,
        sheet,
        ranks,
        cuts,
        cites,
        good,
        counts,
        table,
        order,
        block_of(content, m),
        citations_in(content, m),
    );
    Offered {
        answer: verdict,
        ledger: after,
    }
}
