// The call for the two lists, where records are lent too.
ghost use Rattle.std.specs.Prelude.{[], ◌∷◌, ◌≡◌};
ghost use Rattle.account_records.specs.Records.{ReadsBeside};
ghost use Rattle.admission.specs.Replies.{reply_to};
ghost use Rattle.plain.specs.Answer.{is_accepted};
ghost use Rattle.settlement.specs.Tables.{buffers};
ghost use Rattle.state.specs.State.{kept, sizes_of};
ghost use Rattle.sums.specs.Test.{given};

use readings::accounts::accounts;
use refusals::Refusal;
use state::ledger::{Ledger, sizes};

// Fills `free` and `held` where there is room for as many records as accounts.
pub fn accounts_beside(
    ledger: Ledger,
    sheet: &[u8],
    ranks: &[u32],
    cites: &[u16],
    good: &[u8],
    counts: &mut [u32],
    table: &mut [u8],
    order: &mut [u16],
    free: &mut [u64],
    held: &mut [u64],
    room: usize,
) -> Result<(), Refusal>
    ensures { ReadsBeside ledger
        (kept sheet.now ranks.now [] cites.now good.now)
        (buffers counts.old table.old order.old)
        (free.old ∷ held.old ∷ [])
        room
        (reply_to result)
        (buffers counts.new table.new order.new)
        (free.new ∷ held.new ∷ []) }
{
    let z = sizes(ledger);
    let a = z.a as usize;
    if room < a {
        // The two lists and the records need a places each, so with no list at all the answer is the same and nothing is written.
        let mut none = [0u64; 0];
        let mut nil = [0u64; 0];
        return accounts(
            ledger, sheet, ranks, cites, good, counts, table, order, &mut none, &mut nil,
        );
    }
    accounts(
        ledger, sheet, ranks, cites, good, counts, table, order, free, held,
    )
}

// How many records are written: one an account, none on a refusal.
pub fn records_due(ledger: Ledger, answer: Result<(), Refusal>) -> usize
    ensures { result ≡ given (is_accepted (reply_to answer)) (sizes_of ledger).a }
{
    match answer {
        Err(_) => 0,
        Ok(()) => {
            let z = sizes(ledger);
            let due = z.a;
            due as usize
        }
    }
}
