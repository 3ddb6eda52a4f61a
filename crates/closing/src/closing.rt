// The five readings of a ledger, taken and written.
ghost use Rattle.std.specs.Prelude.{true, [], ◌≡◌};
ghost use Rattle.closing.specs.Closing.{Ample, Closes};
ghost use Rattle.closing.specs.Inner.{Long, Takes};
ghost use Rattle.settlement.specs.Tables.{buffers};
ghost use Rattle.state.specs.State.{complete, kept};

use readings::accounts::accounts;
use readings::log::log;
use readings::registers::registers;
use readings::settlements::settlements;
use readings::share::share;
use state::ledger::{Ledger, sizes};
use text::tail::put_tail;

// Takes the readings that settle, each into its list, and tells the share.
fn take_settled(
    ledger: Ledger,
    sheet: &[u8],
    ranks: &[u32],
    cites: &[u16],
    good: &[u8],
    counts: &mut [u32],
    table: &mut [u8],
    order: &mut [u16],
    txs: &mut [u8],
    free: &mut [u64],
    held: &mut [u64],
    cells: &mut [u32],
) -> u32
    requires { (complete ledger ≡ true)
        × Ample (kept sheet.now ranks.now [] cites.now good.now) (buffers counts.old table.old order.old)
        × Long txs.old free.old held.old cells.old }
    ensures { Takes ledger
        (kept sheet.now ranks.now [] cites.now good.now)
        (buffers counts.old table.old order.old)
        result
        (buffers counts.new table.new order.new)
        txs.new
        free.new
        held.new
        cells.new }
{
    let _txs = settlements(ledger, sheet, ranks, cites, good, counts, table, order, txs);
    let _amounts = accounts(
        ledger, sheet, ranks, cites, good, counts, table, order, free, held,
    );
    let _cells = registers(
        ledger, sheet, ranks, cites, good, counts, table, order, cells,
    );
    share(ledger, sheet, ranks, cites, good, counts, table, order).unwrap_or(0)
}

// Writes them at an offset, and tells where they end. The lists are as long as any sheet needs, so that no call is refused.
pub fn put_readings(
    ledger: Ledger,
    sheet: &[u8],
    ranks: &[u32],
    cites: &[u16],
    good: &[u8],
    counts: &mut [u32],
    table: &mut [u8],
    order: &mut [u16],
    out: &mut [u8],
    at: usize,
) -> usize
    requires { (complete ledger ≡ true) × Ample (kept sheet.now ranks.now [] cites.now good.now) (buffers counts.old table.old order.old) }
    ensures { Closes ledger
        (kept sheet.now ranks.now [] cites.now good.now)
        (buffers counts.old table.old order.old)
        out.old
        at
        (buffers counts.new table.new order.new)
        out.new
        result }
{
    let z = sizes(ledger);
    let mut instances = [0u16; 2048];
    let mut numbers = [0u16; 2048];
    let mut statuses = [0u8; 1024];
    let mut free = [0u64; 1024];
    let mut held = [0u64; 1024];
    let mut cells = [0u32; 64];
    let blocks = log(ledger, ranks, &mut instances, &mut numbers).unwrap_or(0);
    let settled = take_settled(
        ledger,
        sheet,
        ranks,
        cites,
        good,
        counts,
        table,
        order,
        &mut statuses,
        &mut free,
        &mut held,
        &mut cells,
    );
    put_tail(
        out,
        at,
        blocks as usize,
        &instances,
        &numbers,
        z.t,
        &statuses,
        z.a,
        &free,
        &held,
        z.g,
        &cells,
        settled,
    )
}
