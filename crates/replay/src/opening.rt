// A run's sheet, loaded up to the first block.
ghost use Rattle.replay.specs.Inner.{Opens};

use refusals::Refusal;
use state::ledger::{Ledger, fresh, is_complete};
use state::load::load_sheet;

// The ledger with its sheet and where the blocks begin; or the refusal that ends the reading.
#[derive(Clone, Copy)]
pub struct Opened {
    pub answer: Result<(), Refusal>,
    pub ledger: Ledger,
    pub at: usize,
}

// Where the sheet's buffer is too short, that is refusal 16, as `load_sheet` says.
pub fn open_run(run: &[u8], sheet: &mut [u8]) -> Opened
    ensures { Opens run.now sheet.old result sheet.new }
{
    let mut ledger = fresh();
    let mut at: usize = 0;
    while !is_complete(ledger) {
        let loaded = load_sheet(ledger, run, at, sheet);
        let answer = loaded.answer;
        let next = loaded.ledger;
        match answer {
            Ok(Some(end)) => {
                at = end;
                ledger = next;
            }
            Err(r) => {
                return Opened {
                    answer: Err(r),
                    ledger,
                    at,
                };
            }
            Ok(None) => {
                return Opened {
                    answer: Err(Refusal::Short(at)),
                    ledger,
                    at,
                };
            }
        }
    }
    Opened {
        answer: Ok(()),
        ledger,
        at,
    }
}
