// Prints the account lines of a run's reading from a lent list of records, then how many of the places after them kept what they had.
// The run stands on standard input. A reading that a refusal ends is that refusal's line, and a long run is the line `long`.

#![tactic(auto)]

use crate::input::read_full;
use crate::lent::{is_blank, records_of};
use crate::reading::{offer_blocks, open_sheet};
use account_records::Account;
use fields::front;
use refusals::{Refusal, number, place};
use state::ledger::{Ledger, sizes};

mod input;
mod lent;
mod reading;

// A word and numbers, one write each. A write that fails is let go, here and below, and the next one is made.
fn print_line(rt: &impl Print, word: &str, numbers: &[u64]) {
    let _ = print!(rt; "{word}");
    for n in numbers {
        let _ = print!(rt; " ");
        let _ = print!(rt; "{n}");
    }
    let _ = print!(rt; "\n");
}

// As document 01 prints it.
fn print_refusal(rt: &impl Print, r: Refusal) {
    print_line(rt, "refused", &[number(r) as u64, place(r) as u64]);
}

fn print_accounts(rt: &impl Print, records: &[Account], a: usize) {
    for (k, r) in records.iter().take(a).enumerate() {
        print_line(rt, "account", &[k as u64, r.free, r.held]);
    }
}

// How many of the places from a on are as they were.
fn kept(records: &[Account], a: usize) -> usize {
    records.iter().skip(a).filter(|r| is_blank(**r)).count()
}

fn print_records(rt: &impl Print, records: &[Account], a: usize) {
    print_accounts(rt, records, a);
    print_line(rt, "kept", &[kept(records, a) as u64]);
}

fn print_reading(
    rt: &impl Print,
    ledger: Ledger,
    sheet: &[u8],
    ranks: &[u32],
    cites: &[u16],
    good: &[u8],
) {
    let mut counts = [0u32; 2048];
    let mut table = [0u8; 1024];
    let mut order = [0u16; 2048];
    let mut free = [0u64; 1024];
    let mut held = [0u64; 1024];
    let records = records_of(
        ledger,
        sheet,
        ranks,
        cites,
        good,
        &mut counts,
        &mut table,
        &mut order,
        &mut free,
        &mut held,
    );
    let z = sizes(ledger);
    print_records(rt, &records, z.a as usize);
}

fn print_run(rt: &impl Print, run: &[u8]) {
    let mut sheet = [0u8; 110592];
    let mut ranks = [0u32; 2048];
    let mut cuts = [0u16; 32768];
    let mut cites = [0u16; 65536];
    let mut good = [0u8; 65536];
    let mut counts = [0u32; 2048];
    let mut table = [0u8; 1024];
    let mut order = [0u16; 2048];
    let opened = open_sheet(run, &mut sheet);
    let reached = offer_blocks(
        opened,
        &sheet,
        &mut ranks,
        &mut cuts,
        &mut cites,
        &mut good,
        &mut counts,
        &mut table,
        &mut order,
        run,
    );
    let answer = reached.answer;
    let ledger = reached.ledger;
    match answer {
        Err(r) => print_refusal(rt, r),
        Ok(()) => print_reading(rt, ledger, &sheet, &ranks, &cites, &good),
    }
}

fn main(rt: HostRuntime) {
    let mut space = [0u8; 65537];
    let n = read_full(&mut rt.stdin(), &mut space);
    if n > 65536 {
        let _ = println!(&rt; "long");
        return;
    }
    print_run(&rt, front(&space, n));
}
