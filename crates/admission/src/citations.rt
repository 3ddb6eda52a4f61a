// A block's list of citations, by value: at most 32 transaction numbers.
ghost use Rattle.std.specs.Prelude.{min, get_or, length, ◌≡◌};
ghost use Rattle.admission.specs.Citing.{Listed, cites_in};
ghost use Rattle.settlement.specs.View.{no_cite};
ghost use Rattle.frames.specs.Block.{cites_of};

use fields::u16_at;
use frames::block::{cite_at, cites};

// A block cites at most so many transactions.
const MOST: usize = 32;

#[derive(Clone, Copy)]
pub struct Citations {
    pub count: u16,
    pub numbers: [u16; MOST],
}

// The transaction cited at place q; 65535 past the count.
pub fn cite(c: Citations, q: u16) -> u16
    ensures { result ≡ get_or (cites_in c) q no_cite }
{
    if c.count <= q {
        return 65535;
    }
    c.numbers.get(q as usize).copied().unwrap_or(65535)
}

// How many there are.
pub fn size(c: Citations) -> u16
    ensures { result ≡ length (cites_in c) }
{
    c.count.min(MOST as u16)
}

// The first 32 of a list.
pub fn citations_of(list: &[u16]) -> Citations
    ensures { Listed result list.now }
{
    let n = list.len().min(MOST);
    let mut numbers = [0u16; MOST];
    numbers[..n].copy_from_slice(&list[..n]);
    Citations {
        count: n as u16,
        numbers,
    }
}

// The first 32 citations of a block's body on a sheet of m instances.
pub fn citations_in(body: &[u8], m: u16) -> Citations
    ensures { Listed result (cites_of body.now m) }
{
    let count = (u16_at(body, 8) as usize).min(MOST);
    let list = cites(body, m);
    let mut numbers = [0u16; MOST];
    for k in 0..count {
        numbers[k] = cite_at(list, k as u16);
    }
    Citations {
        count: count as u16,
        numbers,
    }
}
