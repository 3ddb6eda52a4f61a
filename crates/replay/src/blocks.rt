// The blocks of a run, offered one after the other, each with its line.
ghost use Rattle.replay.specs.Inner.{PutsBlocks};
ghost use Rattle.settlement.specs.Tables.{buffers};
ghost use Rattle.state.specs.State.{kept};

use crate::answers::{next_frame, put_answer, stops};
use offers::offer::offer_frame;
use state::ledger::Ledger;

// The ledger afterwards, the place after the last line, and whether the output ends there.
#[derive(Clone, Copy)]
pub struct Blocks {
    pub ledger: Ledger,
    pub place: usize,
    pub ended: bool,
}

// With any ledger, and buffers of any length: what is too early or too short is refused, as `offer_frame` says.
pub fn put_blocks(
    ledger: Ledger,
    sheet: &[u8],
    ranks: &mut [u32],
    cuts: &mut [u16],
    cites: &mut [u16],
    good: &mut [u8],
    counts: &mut [u32],
    table: &mut [u8],
    order: &mut [u16],
    run: &[u8],
    at: usize,
    out: &mut [u8],
    place: usize,
) -> Blocks
    ensures { PutsBlocks
        run.now
        at ledger
        (kept sheet.now ranks.old cuts.old cites.old good.old)
        (buffers counts.old table.old order.old)
        out.old
        place result
        (kept sheet.now ranks.new cuts.new cites.new good.new)
        (buffers counts.new table.new order.new)
        out.new }
{
    let mut state = ledger;
    let mut offset = at;
    let mut next = place;
    while offset < run.len() {
        let done = offer_frame(
            state, sheet, ranks, cuts, cites, good, counts, table, order, run, offset,
        );
        let answer = done.answer;
        state = done.ledger;
        let loading = state.loading;
        next = put_answer(answer, run, offset, loading.m, out, next);
        let end = next_frame(run, offset);
        if stops(answer, offset, end) {
            return Blocks {
                ledger: state,
                place: next,
                ended: true,
            };
        }
        offset = end;
    }
    Blocks {
        ledger: state,
        place: next,
        ended: false,
    }
}
