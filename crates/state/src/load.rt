// The sheet, loaded frame by frame.
ghost use Rattle.state.specs.Loading.{LoadsSheet};

use crate::ledger::{Ledger, is_complete};
use frames_load::load;
use refusals::Refusal;

// The answer to a call, and the ledger afterwards. The answer is where the next frame begins, or why the frame was turned away; None
// says that the sheet is complete, so that nothing is left to load.
#[derive(Clone, Copy)]
pub struct Loaded {
    pub answer: Result<Option<usize>, Refusal>,
    pub ledger: Ledger,
}

// The frame of the sheet at an offset of a run.
pub fn load_sheet(ledger: Ledger, run: &[u8], at: usize, sheet: &mut [u8]) -> Loaded
    ensures { LoadsSheet ledger run.now at sheet.old sheet.new result }
{
    if is_complete(ledger) {
        return Loaded {
            answer: Ok(None),
            ledger,
        };
    }
    let loading = ledger.loading;
    let heights = ledger.heights;
    match load(run, at, loading, sheet) {
        Ok(Some((next, end))) => Loaded {
            answer: Ok(Some(end)),
            ledger: Ledger {
                loading: next,
                heights,
            },
        },
        Err(r) => Loaded {
            answer: Err(r),
            ledger,
        },
        Ok(None) => Loaded {
            answer: Ok(None),
            ledger,
        },
    }
}
