// Frames, written. The numbers say the sheet so far: a frame of the sheet that was written is loaded before the next one is.
// Each call returns 0, and in `told` how many bytes it wrote to the front of `out`; or a refusal's number with its place, nothing being written.
ghost use Rattle.std.specs.Prelude.{length};
ghost use Rattle.encoding.specs.Body.{balances_body, block_body, frame_bytes, header_body, transaction_body};
ghost use Rattle.encoding.specs.Verdict.{balances_verdict, block_verdict, header_verdict, transaction_verdict};
ghost use Rattle.frames.specs.declared.step.Loading.{Loading};
ghost use Rattle.rugxeni.specs.Boundary.{WriteCall, block_with, counts_with, cut_with, header_with};
ghost use Rattle.transactions_write.specs.Values.{lists, lists_agree, transaction_with};

use crate::numbers::ledger_in;
use crate::offering::cut_of;
use crate::replies::{say_length, say_short};
use frames::block::Block;
use frames::header::Header;
use frames_write::balances::write_balances;
use frames_write::block::write_block;
use frames_write::header::write_header;
use ordering::{Rank, SequenceNumber};
use transactions_write::{Counts, write_transaction};

// The header: instances, accounts, registers, transactions.
#[unsafe(no_mangle)]
pub extern "C" fn rugxeni_write_header(
    numbers: &[u16],
    m: u16,
    a: u16,
    g: u16,
    t: u16,
    out: &mut [u8],
    told: &mut [u64],
) -> u16
    ensures { WriteCall
        numbers.now
        (λ (s : Loading). header_verdict s (header_with m a g t))
        (λ (s : Loading). frame_bytes 1 (header_body (header_with m a g t)))
        out.old
        told.old
        result
        out.new
        told.new }
{
    if numbers.len() < 22 {
        return say_short(told);
    }
    let ledger = ledger_in(numbers);
    let done = write_header(out, ledger.loading, Header { m, a, g, t });
    say_length(done, told)
}

// The starting balances, one for each account.
#[unsafe(no_mangle)]
pub extern "C" fn rugxeni_write_balances(
    numbers: &[u16],
    balances: &[u64],
    out: &mut [u8],
    told: &mut [u64],
) -> u16
    ensures { WriteCall
        numbers.now
        (λ (s : Loading). balances_verdict s balances.now)
        (λ (s : Loading). frame_bytes 2 (balances_body balances.now))
        out.old
        told.old
        result
        out.new
        told.new }
{
    if numbers.len() < 22 {
        return say_short(told);
    }
    let ledger = ledger_in(numbers);
    let done = write_balances(out, ledger.loading, balances);
    say_length(done, told)
}

// A transaction: kind 0 payment or 1 contract; d debits and c credits, each as accounts and amounts; o operations, as codes, registers and values.
#[unsafe(no_mangle)]
pub extern "C" fn rugxeni_write_transaction(
    numbers: &[u16],
    kind: u8,
    d: u8,
    c: u8,
    o: u8,
    payers: &[u16],
    debits: &[u32],
    payees: &[u16],
    credits: &[u32],
    codes: &[u8],
    registers: &[u8],
    values: &[u32],
    out: &mut [u8],
    told: &mut [u64],
) -> u16
    ensures { WriteCall
        numbers.now
        (λ (s : Loading). transaction_verdict s
        (lists_agree (counts_with kind d c o) (lists payers.now debits.now payees.now credits.now codes.now registers.now values.now))
        (transaction_with kind (lists payers.now debits.now payees.now credits.now codes.now registers.now values.now)))
        (λ (s : Loading). frame_bytes 3 (transaction_body (transaction_with kind (lists payers.now debits.now payees.now credits.now codes.now registers.now values.now))))
        out.old
        told.old
        result
        out.new
        told.new }
{
    if numbers.len() < 22 {
        return say_short(told);
    }
    let ledger = ledger_in(numbers);
    let counts = Counts {
        kind,
        debits: d,
        credits: c,
        operations: o,
    };
    let done = write_transaction(
        out,
        ledger.loading,
        counts,
        payers,
        debits,
        payees,
        credits,
        codes,
        registers,
        values,
    );
    say_length(done, told)
}

// A block with `count` citations, the cut as its first sixteen entries.
#[unsafe(no_mangle)]
pub extern "C" fn rugxeni_write_block(
    numbers: &[u16],
    instance: u16,
    sequence: u16,
    rank: u32,
    count: u16,
    cut: &[u16],
    citations: &[u16],
    out: &mut [u8],
    told: &mut [u64],
) -> u16
    ensures { WriteCall
        numbers.now
        (λ (s : Loading). block_verdict s (cut_with cut.now) count (length citations.now))
        (λ (s : Loading). frame_bytes 4 (block_body s.m (block_with instance sequence rank cut.now) citations.now))
        out.old
        told.old
        result
        out.new
        told.new }
{
    if numbers.len() < 22 {
        return say_short(told);
    }
    let ledger = ledger_in(numbers);
    let block = Block {
        instance,
        sequence: SequenceNumber(sequence),
        rank: Rank(rank),
        cut: cut_of(cut),
    };
    let done = write_block(out, ledger.loading, block, count, citations);
    say_length(done, told)
}
