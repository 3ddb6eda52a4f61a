// Answers as numbers: one is returned, a place and a value are written.
ghost use Rattle.rugxeni.specs.Numbers.{Said, written_number, written_place};

use fields::put;
use refusals::{Refusal, number, place};

pub fn say(code: u16, at: usize, value: u32, told: &mut [u64]) -> u16
    ensures { Said code at value result told.old told.new }
{
    put(told, 0, at as u64);
    put(told, 1, value as u64);
    code
}

// Fewer than 22 numbers: refusal 16.
pub fn say_short(told: &mut [u64]) -> u16
    ensures { Said 16 22 0 result told.old told.new }
{
    say(16, 22, 0, told)
}

// Of a frame or a text that was written its length is told, in the place's stead.
pub fn say_length(answer: Result<usize, Refusal>, told: &mut [u64]) -> u16
    ensures { Said (written_number answer) (written_place answer) 0 result told.old told.new }
{
    match answer {
        Ok(length) => say(0, length, 0, told),
        Err(r) => say(number(r) as u16, place(r), 0, told),
    }
}
