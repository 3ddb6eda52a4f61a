// The sheet, loaded frame by frame.
ghost use Rattle.rugxeni.specs.Boundary.{LoadCall};
ghost use Rattle.std.specs.Prelude.{◌≡◌};
ghost use Rattle.rugxeni.specs.Numbers.{Said, is_taken, load_number, load_place};

use crate::numbers::{keep_ledger, ledger_in};
use crate::replies::{say, say_short};
use refusals::{Refusal, number, place};
use state::load::load_sheet;

// A frame of the sheet was taken.
fn is_taken(answer: Result<Option<usize>, Refusal>) -> bool
    ensures { result ≡ is_taken answer }
{
    match answer {
        Ok(Some(_)) => true,
        Err(_) => false,
        Ok(None) => false,
    }
}

fn say_taken(answer: Result<Option<usize>, Refusal>, told: &mut [u64]) -> u16
    ensures { Said (load_number answer) (load_place answer) 0 result told.old told.new }
{
    match answer {
        Ok(Some(end)) => say(0, end, 0, told),
        Err(r) => say(number(r) as u16, place(r), 0, told),
        Ok(None) => say(255, 0, 0, told),
    }
}

// The frame at the offset `at` of a run. Returns 0, and in `told` where the next frame begins; a refusal's number, and its
// place; or 255 once the sheet is complete.
#[unsafe(no_mangle)]
pub extern "C" fn rugxeni_load(
    numbers: &mut [u16],
    run: &[u8],
    at: usize,
    sheet: &mut [u8],
    told: &mut [u64],
) -> u16
    ensures { LoadCall
        numbers.old
        run.now
        at
        sheet.old
        told.old
        result
        numbers.new
        sheet.new
        told.new }
{
    if numbers.len() < 22 {
        return say_short(told);
    }
    let loaded = load_sheet(ledger_in(numbers), run, at, sheet);
    let answer = loaded.answer;
    keep_ledger(numbers, loaded.ledger, is_taken(answer));
    say_taken(answer, told)
}
