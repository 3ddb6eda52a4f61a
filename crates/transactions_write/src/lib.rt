// The frame of a transaction (document 01, kind 3), written into the caller's buffer.

#![tactic(auto)]

mod lists;

ghost use Rattle.std.specs.Prelude.{◌*◌, ◌+◌, ◌≤◌, length, take, [], ◌∷◌, ◌≡◌};
ghost use Rattle.std.proofs.lemmas.List.Edits.{sets};
ghost use Rattle.encoding.specs.Body.{frame_bytes, transaction_body};
ghost use Rattle.encoding.specs.Verdict.{transaction_verdict};
ghost use Rattle.encoding.specs.Writing.{Wrote};
ghost use Rattle.transactions_write.specs.Inner.{Agree, lists_in, members_bytes};
ghost use Rattle.transactions_write.specs.Values.{lists, lists_agree, transaction_with};

use crate::lists::{Lists, put_entries, put_operations};
use encoding::emit::put_frame;
use fields::put_byte;
use frames::step::{Loading, kind_due};
use refusals::Refusal;
use transactions::check::check_transaction;

// The bytes before the lists: type 0 payment or 1 contract, and how long each list is.
#[derive(Clone, Copy, Debug, PartialEq, Eq)]
pub struct Counts {
    pub kind: u8,
    pub debits: u8,
    pub credits: u8,
    pub operations: u8,
}

// The longest body: four bytes, and six for each of 255 debits, credits and operations.
const MOST: usize = 4594;

fn put_counts(out: &mut [u8], n: Counts)
    ensures { out.new ≡ sets out.old 0 (n.kind ∷ n.debits ∷ n.credits ∷ n.operations ∷ []) }
{
    put_byte(out, 0, n.kind);
    put_byte(out, 1, n.debits);
    put_byte(out, 2, n.credits);
    put_byte(out, 3, n.operations);
}

// The body into a buffer that has room for it.
fn put_body(out: &mut [u8], n: Counts, lists: Lists<'_>)
    requires { (members_bytes (lists_in lists) ≤ length out.old) × Agree n (lists_in lists) }
    ensures { out.new ≡ sets out.old 0 (transaction_body (transaction_with n.kind (lists_in lists.entry))) }
{
    let second = 4 + 6 * lists.payers.len();
    let third = second + 6 * lists.payees.len();
    put_counts(out, n);
    put_entries(out, 4, lists.payers, lists.debits);
    put_entries(out, second, lists.payees, lists.credits);
    put_operations(out, third, lists.codes, lists.registers, lists.values);
}

// The body, and zeros after it.
fn transaction_body(n: Counts, lists: Lists<'_>) -> [u8; MOST]
    requires { (members_bytes (lists_in lists) ≤ MOST) × Agree n (lists_in lists) }
    ensures { take (members_bytes (lists_in lists.entry)) result ≡ transaction_body (transaction_with n.kind (lists_in lists.entry)) }
{
    let mut body = [0u8; MOST];
    put_body(&mut body, n, lists);
    body
}

// Debits are accounts (payers) and amounts, and so are credits (payees); operations are three lists.
pub fn write_transaction(
    out: &mut [u8],
    s: Loading,
    n: Counts,
    payers: &[u16],
    debits: &[u32],
    payees: &[u16],
    credits: &[u32],
    codes: &[u8],
    registers: &[u8],
    values: &[u32],
) -> Result<usize, Refusal>
    ensures { Wrote
        (transaction_verdict s
        (lists_agree n (lists payers.now debits.now payees.now credits.now codes.now registers.now values.now))
        (transaction_with n.kind (lists payers.now debits.now payees.now credits.now codes.now registers.now values.now)))
        (frame_bytes 3 (transaction_body (transaction_with n.kind (lists payers.now debits.now payees.now credits.now codes.now registers.now values.now))))
        out.old
        out.new
        result }
{
    let lists = Lists {
        payers,
        debits,
        payees,
        credits,
        codes,
        registers,
        values,
    };
    if kind_due(s) != 3 {
        return Err(Refusal::KindNotDue(0));
    }
    if !lists.agree(n) {
        return Err(Refusal::BodyLength(0));
    }
    let end = 4 + 6 * (n.debits as usize) + 6 * (n.credits as usize) + 6 * (n.operations as usize);
    let whole = transaction_body(n, lists);
    let body = &whole[..end];
    check_transaction(body, 0, s.a, s.g)?;
    put_frame(out, Ok(()), 3, body)
}
