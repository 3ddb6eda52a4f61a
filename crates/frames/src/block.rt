// A block (document 01, kind 4): its fields, its citations, and the check of its body's length and count.
ghost use Rattle.std.specs.Prelude.{◌*◌, ◌+◌, drop, ◌≡◌};
ghost use Rattle.fields.specs.Number.{le};
ghost use Rattle.frames.specs.Block.{block_of, check_block, cut_entry, cut_of};

use fields::{rest, u16_at, u32_at};
use ordering::{Rank, SequenceNumber};
use refusals::Refusal;

// A block but for its citations, which stay in the body. A sequence number and a rank are different counters.
#[derive(Clone, Copy)]
pub struct Block {
    pub instance: u16,
    pub sequence: SequenceNumber,
    pub rank: Rank,
    pub cut: [u16; 16],
}

fn cut_entry(body: &[u8], m: u16, j: usize) -> u16
    ensures { result ≡ cut_entry body.now m j }
{
    if j < m as usize {
        u16_at(body, 10 + 2 * j)
    } else {
        0
    }
}

// The cut of a block's body on a sheet of m instances: the first m entries, the others 0.
fn cut_of(body: &[u8], m: u16) -> [u16; 16]
    ensures { result ≡ cut_of body.now m }
{
    let mut cut = [0u16; 16];
    for j in 0..16usize {
        cut[j] = cut_entry(body, m, j);
    }
    cut
}

// The fields of a block's body but for its citations.
pub fn block_of(body: &[u8], m: u16) -> Block
    ensures { result ≡ block_of body.now m }
{
    Block {
        instance: u16_at(body, 0),
        sequence: SequenceNumber(u16_at(body, 2)),
        rank: Rank(u32_at(body, 4)),
        cut: cut_of(body, m),
    }
}

// The citations of a block's body, from their first byte on.
pub fn cites(body: &[u8], m: u16) -> &[u8]
    ensures { result.now ≡ drop (10 + 2 * m) body.now }
{
    rest(body, 10 + 2 * (m as usize))
}

// The k-th transaction number of a list of citations.
pub fn cite_at(list: &[u8], k: u16) -> u16
    ensures { result ≡ le 2 list.now (2 * k) }
{
    u16_at(list, 2 * (k as usize))
}

pub fn check_block(body: &[u8], at: usize, m: u16) -> Result<(), Refusal>
    ensures { result ≡ check_block body.now at m }
{
    if body.len() < 10 {
        return Err(Refusal::BodyLength(at));
    }
    let count = u16_at(body, 8);
    if body.len() != 10 + 2 * (m as usize) + 2 * (count as usize) {
        return Err(Refusal::BodyLength(at));
    }
    if 32 < count {
        return Err(Refusal::OutOfRange(at));
    }
    Ok(())
}
