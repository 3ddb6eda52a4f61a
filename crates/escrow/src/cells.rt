// The cells of the cuts: 16 entries a block.
ghost use Rattle.std.specs.Prelude.{◌≡◌};
ghost use Rattle.escrow.specs.Cells.{cut_in};

// Entry e of the cut of block n of instance i, 0 outside the cells.
pub fn cut_at(cuts: &[u16], i: u16, n: u16, e: u16) -> u16
    ensures { result ≡ cut_in cuts.now i n e }
{
    let at = ((i as usize) * 128 + (n as usize)) * 16 + (e as usize);
    cuts.get(at).copied().unwrap_or(0)
}
