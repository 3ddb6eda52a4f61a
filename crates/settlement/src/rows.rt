// Citation places: 4096 an instance, 32 a block.
ghost use Rattle.std.specs.Prelude.{◌≡◌};
ghost use Rattle.settlement.specs.Cells.{cell_in, flag_in};

use fields::byte_at;

// The transaction at place p of instance j's row; 65535 is none.
pub fn cite_at(cites: &[u16], j: u16, p: u16) -> u16
    ensures { result ≡ cell_in cites.now j p }
{
    let at = (j as usize) * 4096 + (p as usize);
    cites.get(at).copied().unwrap_or(65535)
}

// Whether the part booked at place p of instance j's row is good.
pub fn good_at(good: &[u8], j: u16, p: u16) -> bool
    ensures { result ≡ flag_in good.now j p }
{
    byte_at(good, (j as usize) * 4096 + (p as usize)) == 1
}
