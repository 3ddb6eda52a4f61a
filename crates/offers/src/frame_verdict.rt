// The answer to an offered frame, before anything is written.
ghost use Rattle.std.specs.Prelude.{[], length, ◌<◌, ◌≡◌};
ghost use Rattle.admission.specs.Replies.{reply_to};
ghost use Rattle.state.specs.Lengths.{needs_list};
ghost use Rattle.offers.specs.Offering.{answer_from, reply_of, whole_answer};
ghost use Rattle.state.specs.State.{kept};
ghost use Rattle.plain.specs.Offers as offers;

use crate::answer::Answer;
use crate::verdict::block_verdict;
use admission::citations::citations_in;
use frames::block::{block_of, check_block};
use frames::frame::{Span, body, frame};
use refusals::Refusal;
use state::ledger::{Ledger, is_complete};
use state::lengths::{Lengths, check_lengths, least_lengths};

// The answer to a whole frame on this ledger: 3 where a block is not due, 4 and 5 of its body, then those of the block.
fn whole_verdict(
    ledger: Ledger,
    sheet: &[u8],
    ranks: &[u32],
    cuts: &[u16],
    cites: &[u16],
    kind: u16,
    content: &[u8],
    at: usize,
) -> Result<(), Refusal>
    ensures { reply_to result
        ≡ whole_answer ledger
        (kept sheet.now ranks.now cuts.now cites.now [])
        kind
        content.now
        at }
{
    if !is_complete(ledger) {
        return Err(Refusal::KindNotDue(at));
    }
    if kind != 4 {
        return Err(Refusal::KindNotDue(at));
    }
    let m = ledger.loading.m;
    check_block(content, at, m)?;
    block_verdict(
        ledger,
        sheet,
        ranks,
        cuts,
        cites,
        block_of(content, m),
        citations_in(content, m),
    )
}

// The answer to the frame at an offset at which a byte is left.
fn placed_verdict(
    ledger: Ledger,
    lent: Lengths,
    sheet: &[u8],
    ranks: &[u32],
    cuts: &[u16],
    cites: &[u16],
    bytes: &[u8],
    at: usize,
) -> Result<(), Refusal>
    ensures { at < length bytes.now
        → reply_to result
        ≡ answer_from ledger
        (kept sheet.now ranks.now cuts.now cites.now [])
        (offers.frame (needs_list lent) bytes.now at) }
{
    check_lengths(least_lengths(ledger), lent)?;
    match frame(bytes, at)? {
        Some(Span { kind, .. }) => whole_verdict(
            ledger,
            sheet,
            ranks,
            cuts,
            cites,
            kind,
            body(bytes, at),
            at,
        ),
        None => Err(Refusal::KindNotDue(at)),
    }
}

// The answer to the frame at an offset, where buffers of the lengths `lent` are lent.
pub fn frame_verdict(
    ledger: Ledger,
    lent: Lengths,
    sheet: &[u8],
    ranks: &[u32],
    cuts: &[u16],
    cites: &[u16],
    bytes: &[u8],
    at: usize,
) -> Answer
    ensures { reply_of result
        ≡ answer_from ledger
        (kept sheet.now ranks.now cuts.now cites.now [])
        (offers.frame (needs_list lent) bytes.now at) }
{
    if bytes.len() <= at {
        return Answer::NoByte;
    }
    Answer::from(placed_verdict(ledger, lent, sheet, ranks, cuts, cites, bytes, at))
}
