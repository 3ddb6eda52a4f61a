// An accepted block: stored at the end of its instance's log, its places judged, the instance's height raised.
ghost use Rattle.std.specs.Prelude.{◌≡◌};
ghost use Rattle.admission.specs.Citing.{values_of};
ghost use Rattle.state.specs.State.{kept};
ghost use Rattle.acceptance.specs.Taking.{Takeable, Takes, raised_to};
ghost use Rattle.settlement.specs.Tables.{buffers};

use crate::judge::judge_block;
use crate::store::store_block;
use admission::citations::Citations;
use fields::put;
use frames::block::Block;
use ordering::{count_at, usable_counts};
use state::ledger::{Ledger, sizes};

// Instance i has n blocks.
fn raised(ledger: Ledger, i: u16, n: u16) -> Ledger
    ensures { result ≡ raised_to ledger i n }
{
    let mut heights = ledger.heights;
    put(&mut heights, i as usize, n);
    Ledger { heights, ..ledger }
}

pub fn take_block(
    ledger: Ledger,
    sheet: &[u8],
    ranks: &mut [u32],
    cuts: &mut [u16],
    cites: &mut [u16],
    good: &mut [u8],
    counts: &mut [u32],
    table: &mut [u8],
    order: &mut [u16],
    block: Block,
    list: Citations,
) -> Ledger
    requires { Takeable ledger
        (kept sheet.now ranks.old cuts.old cites.old good.old)
        (buffers counts.old table.old order.old)
        (values_of block list) }
    ensures { Takes ledger
        (kept sheet.now ranks.old cuts.old cites.old good.old)
        (buffers counts.old table.old order.old)
        (values_of block list)
        result
        (kept sheet.now ranks.new cuts.new cites.new good.new)
        (buffers counts.new table.new order.new) }
{
    let old = ledger.heights;
    let heights = usable_counts(ranks, old);
    let i = block.instance;
    let h = count_at(heights, i);
    let cut = block.cut;
    store_block(ranks, cuts, cites, h, block, list);
    judge_block(
        sheet,
        ranks,
        cites,
        good,
        sizes(ledger),
        cut,
        i,
        h,
        counts,
        table,
        order,
    );
    raised(ledger, i, h + 1)
}
