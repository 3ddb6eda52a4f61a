// A lent slice of records, filled from the two lists.
ghost use Rattle.std.specs.Prelude.{◌≤◌, get_or, length, take, ◌≡◌};
ghost use Rattle.account_records.specs.Inner.{record_at};
ghost use Rattle.account_records.specs.Records.{joined, over};

use crate::Account;

// The amount at place k, 0 past the end.
fn amount_at(amounts: &[u64], k: usize) -> u64
    ensures { result ≡ get_or amounts.now k 0 }
{
    amounts.get(k).copied().unwrap_or(0)
}

// The record of account k.
fn record_at(free: &[u64], held: &[u64], k: usize) -> Account
    ensures { result ≡ record_at free.now held.now k }
{
    Account {
        free: amount_at(free, k),
        held: amount_at(held, k),
    }
}

// Writes the first n records; the other places keep what they had.
pub fn fill_records(free: &[u64], held: &[u64], n: usize, records: &mut [Account])
    requires { (n ≤ length free.now) × (n ≤ length held.now) × (n ≤ length records.old) }
    ensures { records.new ≡ over (take n (joined free.now held.now)) records.old }
{
    for (k, record) in records[..n].iter_mut().enumerate() {
        *record = record_at(free, held, k);
    }
}
