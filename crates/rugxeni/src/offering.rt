// Offers of blocks.
ghost use Rattle.admission.specs.Citing.{values_with};
ghost use Rattle.plain.specs.Offers as offered;
ghost use Rattle.rugxeni.specs.Boundary.{OfferCall, block_with, cut_with};
ghost use Rattle.offers.specs.Offering.{reply_of};
ghost use Rattle.plain.specs.Answer.{is_accepted};
ghost use Rattle.rugxeni.specs.Numbers.{Said, number_of, numbers_of, place_of};
ghost use Rattle.sums.specs.Seq.{fill};
ghost use Rattle.sums.specs.Test.{pick};
ghost use Rattle.settlement.specs.Tables.{buffers};
ghost use Rattle.state.specs.State.{kept, lengths_of};
ghost use Rattle.std.specs.Prelude.{◌≡◌};

use crate::numbers::{keep_ledger, ledger_in, number_at};
use crate::replies::{say, say_short};
use frames::block::Block;
use offers::answer::{Answer, Offered};
use offers::offer::{offer_block, offer_frame};
use ordering::{Rank, SequenceNumber};
use refusals::{number, place};

// The first sixteen entries; 0 where there are fewer.
pub(crate) fn cut_of(cut: &[u16]) -> [u16; 16]
    ensures { result ≡ cut_with cut.now }
{
    let mut whole = [0u16; 16];
    for e in 0..16usize {
        whole[e] = number_at(cut, e);
    }
    whole
}

fn say_offer(answer: Answer, told: &mut [u64]) -> u16
    ensures { Said (number_of (reply_of answer)) (place_of (reply_of answer)) 0 result told.old told.new }
{
    match answer {
        Answer::Accepted => say(0, 0, 0, told),
        Answer::Refused(r) => say(number(r) as u16, place(r), 0, told),
        Answer::NoByte => say(255, 0, 0, told),
    }
}

// The ledger is kept where the offer was accepted; the answer is told.
fn conclude(numbers: &mut [u16], done: Offered, told: &mut [u64]) -> u16
    ensures kept { numbers.new ≡ pick (is_accepted (reply_of done.answer)) (fill (numbers_of done.ledger) numbers.old) numbers.old }
    ensures said { Said (number_of (reply_of done.answer)) (place_of (reply_of done.answer)) 0 result told.old told.new }
{
    let answer = done.answer;
    keep_ledger(numbers, done.ledger, answer.is_accepted());
    say_offer(answer, told)
}

// The frame at the offset `at` is offered. Returns 0 where it is accepted, a refusal's number, with its place in `told`, or 255 where no byte is left.
#[unsafe(no_mangle)]
pub extern "C" fn rugxeni_offer_frame(
    numbers: &mut [u16],
    sheet: &[u8],
    ranks: &mut [u32],
    cuts: &mut [u16],
    cites: &mut [u16],
    good: &mut [u8],
    counts: &mut [u32],
    table: &mut [u8],
    order: &mut [u16],
    bytes: &[u8],
    at: usize,
    told: &mut [u64],
) -> u16
    ensures { OfferCall
        numbers.old
        (kept sheet.now ranks.old cuts.old cites.old good.old)
        (buffers counts.old table.old order.old)
        (offered.frame (lengths_of (kept sheet.now ranks.old cuts.old cites.old good.old) (buffers counts.old table.old order.old)) bytes.now at)
        told.old
        result
        numbers.new
        (kept sheet.now ranks.new cuts.new cites.new good.new)
        (buffers counts.new table.new order.new)
        told.new }
{
    if numbers.len() < 22 {
        return say_short(told);
    }
    let done = offer_frame(
        ledger_in(numbers),
        sheet,
        ranks,
        cuts,
        cites,
        good,
        counts,
        table,
        order,
        bytes,
        at,
    );
    conclude(numbers, done, told)
}

// A block's values are offered, the cut as its first sixteen entries. Returns as for a frame.
#[unsafe(no_mangle)]
pub extern "C" fn rugxeni_offer_block(
    numbers: &mut [u16],
    sheet: &[u8],
    ranks: &mut [u32],
    cuts: &mut [u16],
    cites: &mut [u16],
    good: &mut [u8],
    counts: &mut [u32],
    table: &mut [u8],
    order: &mut [u16],
    instance: u16,
    sequence: u16,
    rank: u32,
    cut: &[u16],
    citations: &[u16],
    told: &mut [u64],
) -> u16
    ensures { OfferCall
        numbers.old
        (kept sheet.now ranks.old cuts.old cites.old good.old)
        (buffers counts.old table.old order.old)
        (offered.values
        (lengths_of (kept sheet.now ranks.old cuts.old cites.old good.old) (buffers counts.old table.old order.old))
        (values_with (block_with instance sequence rank cut.now) citations.now))
        told.old
        result
        numbers.new
        (kept sheet.now ranks.new cuts.new cites.new good.new)
        (buffers counts.new table.new order.new)
        told.new }
{
    if numbers.len() < 22 {
        return say_short(told);
    }
    let block = Block {
        instance,
        sequence: SequenceNumber(sequence),
        rank: Rank(rank),
        cut: cut_of(cut),
    };
    let offered = offer_block(
        ledger_in(numbers),
        sheet,
        ranks,
        cuts,
        cites,
        good,
        counts,
        table,
        order,
        block,
        citations,
    );
    conclude(numbers, offered, told)
}
