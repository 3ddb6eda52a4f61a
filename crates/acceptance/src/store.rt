// The cells of an accepted block.
ghost use Rattle.std.specs.Prelude.{◌*◌, ◌+◌, get_or, ◌≡◌};
ghost use Rattle.admission.specs.Citing.{cites_in};
ghost use Rattle.acceptance.specs.Judging.{Stores};
ghost use Rattle.settlement.specs.View.{no_cite};
ghost use Rattle.sums.specs.Seq.{written};

use admission::citations::{Citations, cite};
use fields::put;
use frames::block::Block;
use ordering::count_at;

// The sixteen cut entries of block n of instance i.
fn put_cut(cuts: &mut [u16], i: u16, n: u16, cut: [u16; 16])
    ensures { cuts.new ≡ written cuts.old ((i * 128 + n) * 16) 16 (λ e. get_or cut e 0) }
{
    let at = ((i as usize) * 128 + (n as usize)) * 16;
    for e in 0..16u16 {
        put(cuts, at + (e as usize), count_at(cut, e));
    }
}

// The 32 citation places of block n of instance i; those past the list are empty.
fn put_cites(cites: &mut [u16], i: u16, n: u16, list: Citations)
    ensures { cites.new ≡ written cites.old (i * 4096 + n * 32) 32 (λ q. get_or (cites_in list) q no_cite) }
{
    let at = (i as usize) * 4096 + (n as usize) * 32;
    for q in 0..32u16 {
        put(cites, at + (q as usize), cite(list, q));
    }
}

// Block n of instance i.
pub fn store_block(
    ranks: &mut [u32],
    cuts: &mut [u16],
    cites: &mut [u16],
    n: u16,
    block: Block,
    list: Citations,
)
    ensures { Stores block
        (cites_in list)
        n
        ranks.old
        cuts.old
        cites.old
        ranks.new
        cuts.new
        cites.new }
{
    let i = block.instance;
    let rank = block.rank;
    let cut = block.cut;
    put(ranks, (i as usize) * 128 + (n as usize), rank.0);
    put_cut(cuts, i, n, cut);
    put_cites(cites, i, n, list);
}
