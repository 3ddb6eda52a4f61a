// A run read by the library's own calls: its sheet frame by frame, then its blocks, one offer after the other.
use frames::frame::{Span, frame};
use offers::answer::Answer;
use offers::offer::offer_frame;
use refusals::{Refusal, number};
use state::ledger::{Ledger, fresh, is_complete};
use state::load::load_sheet;

// A proved loop has to end. Each call takes a frame of six bytes or more, and a run has at most 65,536.
const CALLS: u32 = 65536;

// How far a run has been read; a refusal has ended the reading.
#[derive(Clone, Copy)]
pub struct Reached {
    pub answer: Result<(), Refusal>,
    pub ledger: Ledger,
    pub at: usize,
}

// The next frame of the sheet. Refusal 1 where no byte is left.
fn load_next(before: Reached, run: &[u8], sheet: &mut [u8]) -> Reached {
    let at = before.at;
    let ledger = before.ledger;
    let loaded = load_sheet(ledger, run, at, sheet);
    let answer = loaded.answer;
    let next = loaded.ledger;
    match answer {
        Ok(Some(end)) => Reached {
            answer: Ok(()),
            ledger: next,
            at: end,
        },
        Err(r) => Reached {
            answer: Err(r),
            ledger: next,
            at,
        },
        Ok(None) => Reached {
            answer: Err(Refusal::Short(at)),
            ledger: next,
            at,
        },
    }
}

fn is_loading(reached: Reached) -> bool {
    let answer = reached.answer;
    let ledger = reached.ledger;
    answer.is_ok() && !is_complete(ledger)
}

// The sheet, up to the first block.
pub fn open_sheet(run: &[u8], sheet: &mut [u8]) -> Reached {
    let mut reached = Reached {
        answer: Ok(()),
        ledger: fresh(),
        at: 0,
    };
    for _ in 0..CALLS {
        if !is_loading(reached) {
            break;
        }
        reached = load_next(reached, run, sheet);
    }
    reached
}

// Refusals 1 to 7 end the reading; after any other the next block follows.
fn ending(answer: Answer) -> Result<(), Refusal> {
    match answer {
        Answer::Accepted => Ok(()),
        Answer::Refused(r) => {
            if number(r) <= 7 {
                return Err(r);
            }
            Ok(())
        }
        Answer::NoByte => Ok(()),
    }
}

// Where the next frame begins.
fn after(run: &[u8], at: usize) -> usize {
    match frame(run, at) {
        Ok(Some(Span { end, .. })) => end,
        Err(_) => at,
        Ok(None) => at,
    }
}

// The next block.
fn offer_next(
    before: Reached,
    sheet: &[u8],
    ranks: &mut [u32],
    cuts: &mut [u16],
    cites: &mut [u16],
    good: &mut [u8],
    counts: &mut [u32],
    table: &mut [u8],
    order: &mut [u16],
    run: &[u8],
) -> Reached {
    let at = before.at;
    let ledger = before.ledger;
    let done = offer_frame(
        ledger, sheet, ranks, cuts, cites, good, counts, table, order, run, at,
    );
    let answer = done.answer;
    let next = done.ledger;
    Reached {
        answer: ending(answer),
        ledger: next,
        at: after(run, at),
    }
}

fn is_offering(reached: Reached, n: usize) -> bool {
    let answer = reached.answer;
    answer.is_ok() && reached.at < n
}

// All blocks, to the run's end.
pub fn offer_blocks(
    opened: Reached,
    sheet: &[u8],
    ranks: &mut [u32],
    cuts: &mut [u16],
    cites: &mut [u16],
    good: &mut [u8],
    counts: &mut [u32],
    table: &mut [u8],
    order: &mut [u16],
    run: &[u8],
) -> Reached {
    let mut reached = opened;
    for _ in 0..CALLS {
        if !is_offering(reached, run.len()) {
            break;
        }
        reached = offer_next(
            reached, sheet, ranks, cuts, cites, good, counts, table, order, run,
        );
    }
    reached
}
