// What follows the lines of the blocks, from lists as the calls for readings fill them: their first members, as far as they go.
ghost use Rattle.std.specs.Prelude.{take, ◌≡◌};
ghost use Rattle.text.specs.Tail.{account_lines, code_lines, lists_text, number_lines, register_lines};
ghost use Rattle.text.specs.Wrote.{Wrote};

use crate::lines::{put_account, put_log, put_register, put_share, put_tx};

// At most the first n members.
fn front<T>(list: &[T], n: usize) -> &[T]
    ensures { result.now ≡ take n list.now }
{
    &list[..n.min(list.len())]
}

fn put_logs(out: &mut [u8], at: usize, instances: &[u16], numbers: &[u16]) -> usize
    ensures { Wrote out.old at (number_lines instances.now numbers.now) out.new result }
{
    let mut next = at;
    for (&instance, &number) in instances.iter().zip(numbers) {
        next = put_log(out, next, instance, number);
    }
    next
}

fn put_txs(out: &mut [u8], at: usize, statuses: &[u8]) -> usize
    ensures { Wrote out.old at (code_lines statuses.now) out.new result }
{
    let mut next = at;
    for (x, &status) in statuses.iter().enumerate() {
        next = put_tx(out, next, x as u64, status);
    }
    next
}

fn put_accounts(out: &mut [u8], at: usize, free: &[u64], held: &[u64]) -> usize
    ensures { Wrote out.old at (account_lines free.now held.now) out.new result }
{
    let mut next = at;
    for (k, (&free, &held)) in free.iter().zip(held).enumerate() {
        next = put_account(out, next, k as u64, free, held);
    }
    next
}

fn put_registers(out: &mut [u8], at: usize, registers: &[u32]) -> usize
    ensures { Wrote out.old at (register_lines registers.now) out.new result }
{
    let mut next = at;
    for (r, &value) in registers.iter().enumerate() {
        next = put_register(out, next, r as u64, value);
    }
    next
}

// The first n blocks of the log, t transactions, a accounts and g registers, and the share.
pub fn put_tail(
    out: &mut [u8],
    at: usize,
    n: usize,
    instances: &[u16],
    numbers: &[u16],
    t: u16,
    statuses: &[u8],
    a: u16,
    free: &[u64],
    held: &[u64],
    g: u16,
    registers: &[u32],
    share: u32,
) -> usize
    ensures { Wrote
        out.old
        at
        (lists_text (take n instances.now) (take n numbers.now) (take t statuses.now) (take a free.now) (take a held.now) (take g registers.now) share)
        out.new
        result }
{
    let logs = put_logs(out, at, front(instances, n), front(numbers, n));
    let txs = put_txs(out, logs, front(statuses, t as usize));
    let accounts = put_accounts(out, txs, front(free, a as usize), front(held, a as usize));
    let next = put_registers(out, accounts, front(registers, g as usize));
    put_share(out, next, share)
}
