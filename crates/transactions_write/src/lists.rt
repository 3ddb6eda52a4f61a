// The lists of a transaction, and how they are stored from a place on.
ghost use Rattle.std.specs.Prelude.{◌*◌, ◌+◌, ◌≤◌, length, ◌≡◌};
ghost use Rattle.std.proofs.lemmas.List.Edits.{sets};
ghost use Rattle.encoding.specs.Body.{entries_bytes, operations_bytes};
ghost use Rattle.transactions_write.specs.Inner.{lists_in};
ghost use Rattle.transactions_write.specs.Values.{entries_with, lists_agree, operations_with};

use crate::Counts;
use fields::{put_byte, put_u16, put_u32};

// Debits are accounts (payers) and amounts, and so are credits (payees); operations are three lists.
#[derive(Clone, Copy)]
pub(crate) struct Lists<'a> {
    pub(crate) payers: &'a [u16],
    pub(crate) debits: &'a [u32],
    pub(crate) payees: &'a [u16],
    pub(crate) credits: &'a [u32],
    pub(crate) codes: &'a [u8],
    pub(crate) registers: &'a [u8],
    pub(crate) values: &'a [u32],
}

impl Lists<'_> {
    // Each list is as long as its count says.
    #[tactic(auto, unfolding(crate::specs::Values::counts_agree, sums::specs::Test::pick))]
    pub(crate) fn agree(self, n: Counts) -> bool
        ensures { result ≡ lists_agree n (lists_in self.entry) }
    {
        self.payers.len() == n.debits as usize
            && self.debits.len() == n.debits as usize
            && self.payees.len() == n.credits as usize
            && self.credits.len() == n.credits as usize
            && self.codes.len() == n.operations as usize
            && self.registers.len() == n.operations as usize
            && self.values.len() == n.operations as usize
    }
}

pub(crate) fn put_entries(out: &mut [u8], at: usize, accounts: &[u16], amounts: &[u32])
    requires { (at + 6 * length accounts.now ≤ length out.old) × (length amounts.now ≡ length accounts.now) }
    ensures { out.new ≡ sets out.old at (entries_bytes (entries_with accounts.now amounts.now)) }
{
    for (k, (&account, &amount)) in accounts.iter().zip(amounts).enumerate() {
        put_u16(out, at + 6 * k, account);
        put_u32(out, at + 6 * k + 2, amount);
    }
}

pub(crate) fn put_operations(
    out: &mut [u8],
    at: usize,
    codes: &[u8],
    registers: &[u8],
    values: &[u32],
)
    requires { (at + 6 * length codes.now ≤ length out.old)
        × ((length registers.now ≡ length codes.now) × (length values.now ≡ length codes.now)) }
    ensures { out.new
        ≡ sets out.old at (operations_bytes (operations_with codes.now registers.now values.now)) }
{
    for (k, ((&code, &register), &value)) in codes.iter().zip(registers).zip(values).enumerate() {
        put_byte(out, at + 6 * k, code);
        put_byte(out, at + 6 * k + 1, register);
        put_u32(out, at + 6 * k + 2, value);
    }
}
