// The answer to an offered block: refusals 5 of its values, 8, 17, 9 and 10, then those of its entries and citations.
ghost use Rattle.std.specs.Prelude.{[], ◌≡◌};
ghost use Rattle.admission.specs.Citing.{values_of};
ghost use Rattle.admission.specs.Replies.{lists_answer, ranks_only, reply_to};
ghost use Rattle.escrow.specs.Cells.{history_in};
ghost use Rattle.sheets.specs.Sheet.{sheet_in};
ghost use Rattle.ordering.specs.Table.{count_in};
ghost use Rattle.plain.specs.Plain.{block_answer, last_rank, values_answer};

use crate::citations::Citations;
use crate::cites::check_cites;
use crate::entries::{check_cover, check_order, unused_set};
use frames::block::Block;
use ordering::count_at;
use refusals::Refusal;
use sheets::sheet::Sizes;

// Refusal 5 of a block's values: its count, and entries that no instance has.
pub fn check_values(m: u16, cut: [u16; 16], count: usize) -> Result<(), Refusal>
    ensures { reply_to result ≡ values_answer m cut count }
{
    if 32 < count {
        return Err(Refusal::OutOfRange(0));
    }
    if unused_set(m, cut) {
        return Err(Refusal::OutOfRange(0));
    }
    Ok(())
}

// The rank of instance i's last block, 0 if there is none.
fn last_rank(heights: [u16; 16], ranks: &[u32], i: u16) -> u32
    ensures { result ≡ last_rank (ranks_only heights ranks.now) i }
{
    let h = count_at(heights, i);
    if h == 0 {
        return 0;
    }
    let at = (i as usize) * 128 + (h as usize) - 1;
    ranks.get(at).copied().unwrap_or(0)
}

// 11 over all entries, 12 over all entries, then 13, 14 and 15 at each citation in turn.
fn check_lists(
    sheet: &[u8],
    z: Sizes,
    heights: [u16; 16],
    cuts: &[u16],
    cites: &[u16],
    block: Block,
    list: Citations,
) -> Result<(), Refusal>
    ensures { reply_to result
        ≡ lists_answer (sheet_in sheet.now z) (history_in (count_in heights) [] cuts.now cites.now) (values_of block list) }
{
    let cut = block.cut;
    let order = check_order(z.m, heights, cuts, block);
    let cover = check_cover(z.m, heights, cut);
    order?;
    cover?;
    check_cites(sheet, z, heights, cites, block, list)
}

// The first refusal of a block: 8, 17, 9, 10, then those of its lists.
pub fn check_block(
    sheet: &[u8],
    z: Sizes,
    heights: [u16; 16],
    ranks: &[u32],
    cuts: &[u16],
    cites: &[u16],
    block: Block,
    list: Citations,
) -> Result<(), Refusal>
    ensures { reply_to result
        ≡ block_answer
        (sheet_in sheet.now z)
        (history_in (count_in heights) ranks.now cuts.now cites.now)
        (values_of block list) }
{
    let i = block.instance;
    if z.m <= i {
        return Err(Refusal::NoInstance);
    }
    let h = count_at(heights, i);
    if 128 <= h {
        return Err(Refusal::LogFull);
    }
    if block.sequence.0 != h + 1 {
        return Err(Refusal::NotNumberDue(h + 1));
    }
    let last = last_rank(heights, ranks, i);
    if block.rank.0 <= last {
        return Err(Refusal::RankNotAbove(last));
    }
    check_lists(sheet, z, heights, cuts, cites, block, list)
}
