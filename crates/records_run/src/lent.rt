// A local array of records, lent to the call that fills it.
ghost use Rattle.std.specs.Prelude.{[], ◌∷◌, ◌≡◌};
ghost use Rattle.account_records.specs.Records.{ReadsRecords};
ghost use Rattle.plain.specs.Answer.{Answer};
ghost use Rattle.records_run.specs.Blank.{blanks};
ghost use Rattle.settlement.specs.Tables.{buffers};
ghost use Rattle.state.specs.State.{kept};

use account_records::{Account, account_records};
use state::ledger::Ledger;

// An amount that no account has.
const BLANK: u64 = u64::MAX;

// As many records as a sheet may have accounts, each as no account has it.
fn blank() -> [Account; 1024]
    ensures { result ≡ blanks }
{
    [Account {
        free: BLANK,
        held: BLANK,
    }; 1024]
}

pub fn is_blank(r: Account) -> bool {
    r.free == BLANK && r.held == BLANK
}

// The records of the accounts; the places after them are as `blank` has them.
pub fn records_of(
    ledger: Ledger,
    sheet: &[u8],
    ranks: &[u32],
    cites: &[u16],
    good: &[u8],
    counts: &mut [u32],
    table: &mut [u8],
    order: &mut [u16],
    free: &mut [u64],
    held: &mut [u64],
) -> [Account; 1024]
    ensures { (a : Answer)
        × ReadsRecords ledger
        (kept sheet.now ranks.now [] cites.now good.now)
        (buffers counts.old table.old order.old)
        (free.old ∷ held.old ∷ [])
        blanks a
        (buffers counts.new table.new order.new)
        (free.new ∷ held.new ∷ [])
        result }
{
    let mut records = blank();
    let _ = account_records(
        ledger,
        sheet,
        ranks,
        cites,
        good,
        counts,
        table,
        order,
        free,
        held,
        &mut records,
    );
    records
}
