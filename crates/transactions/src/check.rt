// The check of a transaction's body: refusals 4, 5, 6 and 7, in this order.
ghost use Rattle.std.specs.Prelude.{◌≡◌};
ghost use Rattle.transactions.specs.Body.{entry_in, operation_in, transaction_of};
ghost use Rattle.transactions.specs.Check.{accounts_once, amounts, balanced, check_transaction, counts_ok, distinct, entries_ok, entry_ok, in_range, new_at, operation_ok, operations_ok};

use crate::lists::{account_at, amount_at, credits, debits, operations};
use fields::byte_at;
use refusals::Refusal;

fn entry_ok(list: &[u8], k: u8, a: u16) -> bool
    ensures { result ≡ entry_ok a (entry_in list.now k) }
{
    if account_at(list, k) < a {
        1 <= amount_at(list, k)
    } else {
        false
    }
}

fn operation_ok(list: &[u8], k: u8, g: u16) -> bool
    ensures { result ≡ operation_ok g (operation_in list.now k) }
{
    if byte_at(list, 6 * (k as usize)) <= 4 {
        (byte_at(list, 6 * (k as usize) + 1) as u16) < g
    } else {
        false
    }
}

fn entries_ok(list: &[u8], n: u8, a: u16) -> bool
    ensures { result ≡ entries_ok a n (entry_in list.now) }
{
    for k in 0..n {
        if !entry_ok(list, k, a) {
            return false;
        }
    }
    true
}

fn operations_ok(list: &[u8], n: u8, g: u16) -> bool
    ensures { result ≡ operations_ok g n (operation_in list.now) }
{
    for k in 0..n {
        if !operation_ok(list, k, g) {
            return false;
        }
    }
    true
}

// No entry before the k-th names its account.
fn new_at(list: &[u8], k: u8) -> bool
    ensures { result ≡ new_at (entry_in list.now) k }
{
    for j in 0..k {
        if account_at(list, j) == account_at(list, k) {
            return false;
        }
    }
    true
}

fn all_new(list: &[u8], n: u8) -> bool
    ensures { result ≡ distinct n (entry_in list.now) }
{
    for k in 0..n {
        if !new_at(list, k) {
            return false;
        }
    }
    true
}

fn total(list: &[u8], n: u8) -> u64
    ensures { result ≡ amounts n (entry_in list.now) }
{
    let mut sum: u64 = 0;
    for k in 0..n {
        sum += amount_at(list, k) as u64;
    }
    sum
}

fn counts_ok(kind: u8, d: u8, c: u8, o: u8) -> bool
    ensures { result ≡ counts_ok kind d c o }
{
    if 1 < kind {
        return false;
    }
    if d < 1 {
        return false;
    }
    if 4 < d {
        return false;
    }
    if c < 1 {
        return false;
    }
    if 4 < c {
        return false;
    }
    if 8 < o {
        return false;
    }
    if kind == 0 {
        return o == 0;
    }
    true
}

fn in_range(body: &[u8], a: u16, g: u16) -> bool
    ensures { result ≡ in_range a g (transaction_of body.now) }
{
    let d = byte_at(body, 1);
    let c = byte_at(body, 2);
    let o = byte_at(body, 3);
    if !counts_ok(byte_at(body, 0), d, c, o) {
        return false;
    }
    if !entries_ok(debits(body), d, a) {
        return false;
    }
    if !entries_ok(credits(body), c, a) {
        return false;
    }
    operations_ok(operations(body), o, g)
}

fn accounts_once(body: &[u8]) -> bool
    ensures { result ≡ accounts_once (transaction_of body.now) }
{
    if !all_new(debits(body), byte_at(body, 1)) {
        return false;
    }
    all_new(credits(body), byte_at(body, 2))
}

fn sums_agree(body: &[u8]) -> bool
    ensures { result ≡ balanced (transaction_of body.now) }
{
    total(debits(body), byte_at(body, 1)) == total(credits(body), byte_at(body, 2))
}

// The check of a transaction's body on a sheet of a accounts and g registers, of a frame at the offset at.
pub fn check_transaction(body: &[u8], at: usize, a: u16, g: u16) -> Result<(), Refusal>
    ensures { result ≡ check_transaction body.now at a g }
{
    if body.len() < 4 {
        return Err(Refusal::BodyLength(at));
    }
    let lists = (byte_at(body, 1) as usize)
        + (byte_at(body, 2) as usize)
        + (byte_at(body, 3) as usize);
    if body.len() != 4 + 6 * lists {
        return Err(Refusal::BodyLength(at));
    }
    if !in_range(body, a, g) {
        return Err(Refusal::OutOfRange(at));
    }
    if !accounts_once(body) {
        return Err(Refusal::AccountTwice(at));
    }
    if !sums_agree(body) {
        return Err(Refusal::SumsDiffer(at));
    }
    Ok(())
}
