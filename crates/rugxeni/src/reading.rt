// What a call for a reading tells.
ghost use Rattle.std.specs.Result.{result_unwrap_or};
ghost use Rattle.admission.specs.Replies.{reply_to};
ghost use Rattle.rugxeni.specs.Numbers.{Said, number_of, place_of};

use crate::replies::say;
use refusals::{Refusal, number, place};

// The number that a reading is, as the second number told.
pub fn say_number(answer: Result<u32, Refusal>, told: &mut [u64]) -> u16
    ensures { Said (number_of (reply_to answer)) (place_of (reply_to answer)) (result_unwrap_or answer 0) result told.old told.new }
{
    match answer {
        Ok(value) => say(0, 0, value, told),
        Err(r) => say(number(r) as u16, place(r), 0, told),
    }
}

// A reading that fills lists tells 0.
pub fn say_reading(answer: Result<(), Refusal>, told: &mut [u64]) -> u16
    ensures { Said (number_of (reply_to answer)) (place_of (reply_to answer)) 0 result told.old told.new }
{
    say_number(answer.and(Ok(0)), told)
}
