// The lines of a reading, each by its numbers.
ghost use Rattle.settlement.specs.Tables.{status_of};
ghost use Rattle.text.specs.Lines.{account_line, log_line, long_line, ok_line, refused_line, register_line, run_line, share_line, status_end, tx_line};
ghost use Rattle.text.specs.Wrote.{Wrote};

use crate::write::{put_field, put_line, put_word};

#[tactic(auto, unfolding(crate::specs::Ascii::bytes_of, crate::specs::Lines::run_line))]
pub fn put_run(out: &mut [u8], at: usize, m: u16, a: u16, g: u16, t: u16) -> usize
    ensures { Wrote out.old at (run_line m a g t) out.new result }
{
    let numbers = [m as u64, a as u64, g as u64, t as u64];
    put_line(out, at, b"run", &numbers)
}

#[tactic(auto, unfolding(crate::specs::Ascii::bytes_of, crate::specs::Lines::ok_line))]
pub fn put_ok(out: &mut [u8], at: usize, instance: u16, number: u16) -> usize
    ensures { Wrote out.old at (ok_line instance number) out.new result }
{
    let numbers = [instance as u64, number as u64];
    put_line(out, at, b"ok", &numbers)
}

#[tactic(auto, unfolding(crate::specs::Ascii::bytes_of, crate::specs::Lines::refused_line))]
pub fn put_refused(out: &mut [u8], at: usize, number: u8, place: usize) -> usize
    ensures { Wrote out.old at (refused_line number place) out.new result }
{
    let numbers = [number as u64, place as u64];
    put_line(out, at, b"refused", &numbers)
}

pub fn put_long(out: &mut [u8], at: usize) -> usize
    ensures { Wrote out.old at long_line out.new result }
{
    put_word(out, at, b"long\n")
}

#[tactic(auto, unfolding(crate::specs::Ascii::bytes_of, crate::specs::Lines::log_line))]
pub(crate) fn put_log(out: &mut [u8], at: usize, instance: u16, number: u16) -> usize
    ensures { Wrote out.old at (log_line instance number) out.new result }
{
    let numbers = [instance as u64, number as u64];
    put_line(out, at, b"log", &numbers)
}

// The last field of a transaction's line, and the line feed.
fn put_status(out: &mut [u8], at: usize, status: u8) -> usize
    ensures { Wrote out.old at (status_end (status_of status)) out.new result }
{
    if status == 0 {
        put_word(out, at, b" open\n")
    } else if status == 1 {
        put_word(out, at, b" paid\n")
    } else {
        put_word(out, at, b" returned\n")
    }
}

pub(crate) fn put_tx(out: &mut [u8], at: usize, x: u64, status: u8) -> usize
    ensures { Wrote out.old at (tx_line x (status_of status)) out.new result }
{
    let word = put_word(out, at, b"tx");
    let number = put_field(out, word, x);
    put_status(out, number, status)
}

#[tactic(auto, unfolding(crate::specs::Ascii::bytes_of, crate::specs::Lines::account_line))]
pub(crate) fn put_account(out: &mut [u8], at: usize, k: u64, free: u64, held: u64) -> usize
    ensures { Wrote out.old at (account_line k free held) out.new result }
{
    let numbers = [k, free, held];
    put_line(out, at, b"account", &numbers)
}

#[tactic(auto, unfolding(crate::specs::Ascii::bytes_of, crate::specs::Lines::register_line))]
pub(crate) fn put_register(out: &mut [u8], at: usize, r: u64, value: u32) -> usize
    ensures { Wrote out.old at (register_line r value) out.new result }
{
    let numbers = [r, value as u64];
    put_line(out, at, b"register", &numbers)
}

#[tactic(auto, unfolding(crate::specs::Ascii::bytes_of, crate::specs::Lines::share_line))]
pub(crate) fn put_share(out: &mut [u8], at: usize, share: u32) -> usize
    ensures { Wrote out.old at (share_line share) out.new result }
{
    let numbers = [share as u64];
    put_line(out, at, b"share", &numbers)
}
