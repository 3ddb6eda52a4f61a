// The accounts as records, free and held together.

#![tactic(auto)]

ghost use Rattle.std.specs.Prelude.{[], ◌∷◌};
ghost use Rattle.account_records.specs.Records.{ReadsRecords};
ghost use Rattle.admission.specs.Replies.{reply_to};
ghost use Rattle.settlement.specs.Tables.{buffers};
ghost use Rattle.state.specs.State.{kept};

use crate::beside::{accounts_beside, records_due};
use crate::fill::fill_records;
use refusals::Refusal;
use state::ledger::Ledger;

mod beside;
mod fill;

// What an account has: free, and held for transactions that are open.
#[derive(Clone, Copy)]
pub struct Account {
    pub free: u64,
    pub held: u64,
}

// Fills `free` and `held`, then `records` with the two together, from account 0 up.
pub fn account_records(
    ledger: Ledger,
    sheet: &[u8],
    ranks: &[u32],
    cites: &[u16],
    good: &[u8],
    counts: &mut [u32],
    table: &mut [u8],
    order: &mut [u16],
    free: &mut [u64],
    held: &mut [u64],
    records: &mut [Account],
) -> Result<(), Refusal>
    ensures { ReadsRecords ledger
        (kept sheet.now ranks.now [] cites.now good.now)
        (buffers counts.old table.old order.old)
        (free.old ∷ held.old ∷ [])
        records.old
        (reply_to result)
        (buffers counts.new table.new order.new)
        (free.new ∷ held.new ∷ [])
        records.new }
{
    let answer = accounts_beside(
        ledger,
        sheet,
        ranks,
        cites,
        good,
        counts,
        table,
        order,
        free,
        held,
        records.len(),
    );
    let n = records_due(ledger, answer);
    fill_records(free, held, n, records);
    answer
}
