// The frame of a block (document 01, kind 4).
ghost use Rattle.std.specs.Prelude.{◌*◌, ◌+◌, ◌≤◌, length, take, ◌≡◌};
ghost use Rattle.std.proofs.lemmas.List.Edits.{sets};
ghost use Rattle.encoding.specs.Body.{block_body, cut_ok, fixed_bytes, frame_bytes};
ghost use Rattle.encoding.specs.Verdict.{block_verdict};
ghost use Rattle.encoding.specs.Writing.{Wrote};

use crate::lists::put_numbers;
use encoding::emit::put_frame;
use fields::{put_u16, put_u32};
use frames::block::Block;
use frames::step::{Loading, kind_due};
use refusals::Refusal;

// The longest body: ten bytes, and two for each of 16 entries of a cut and 32 citations.
const MOST: usize = 106;

// Each entry that is not used is 0.
fn cut_ok(m: u16, cut: [u16; 16]) -> bool
    ensures { result ≡ cut_ok m cut }
{
    cut.iter()
        .enumerate()
        .all(|(j, v)| j < m as usize || *v == 0)
}

#[tactic(auto, unfolding(encoding::specs::Verdict::block_verdict, sums::specs::Test::pick))]
fn block_verdict(s: Loading, cut: [u16; 16], count: u16, n: usize) -> Result<(), Refusal>
    ensures { result ≡ block_verdict s cut count n }
{
    if kind_due(s) != 4 {
        return Err(Refusal::KindNotDue(0));
    }
    if n != count as usize {
        return Err(Refusal::BodyLength(0));
    }
    if 32 < count {
        return Err(Refusal::OutOfRange(0));
    }
    if !cut_ok(s.m, cut) {
        return Err(Refusal::OutOfRange(0));
    }
    Ok(())
}

// The fields of fixed width.
#[tactic(auto, using(crate::proofs::BodyStores::fixed_stores))]
fn put_fixed(out: &mut [u8], block: Block, count: u16)
    ensures { out.new ≡ sets out.old 0 (fixed_bytes block count) }
{
    put_u16(out, 0, block.instance);
    put_u16(out, 2, block.sequence.0);
    put_u32(out, 4, block.rank.0);
    put_u16(out, 8, count);
}

// The fields, the first m entries of the cut, and the citations.
#[tactic(auto, using(crate::proofs::BodyStores::block_stores, crate::proofs::BodyStores::cut_front))]
fn put_body(out: &mut [u8], m: u16, block: Block, cites: &[u16])
    requires { (MOST ≤ length out.old) × (m ≤ 16) × (length cites.now ≤ 32) }
    ensures { out.new ≡ sets out.old 0 (block_body m block cites.now) }
{
    let used = m as usize;
    put_fixed(out, block, cites.len() as u16);
    put_numbers(out, 10, &block.cut[..used]);
    put_numbers(out, 10 + 2 * used, cites);
}

// The body, and zeros after it.
fn block_body(m: u16, block: Block, cites: &[u16]) -> [u8; MOST]
    requires { (m ≤ 16) × (length cites.now ≤ 32) }
    ensures { take (10 + 2 * m + 2 * length cites.now) result ≡ block_body m block cites.now }
{
    let mut body = [0u8; MOST];
    put_body(&mut body, m, block, cites);
    body
}

pub fn write_block(
    out: &mut [u8],
    s: Loading,
    block: Block,
    count: u16,
    cites: &[u16],
) -> Result<usize, Refusal>
    ensures { Wrote
        (block_verdict s block.cut count (length cites.now))
        (frame_bytes 4 (block_body s.m block cites.now))
        out.old
        out.new
        result }
{
    block_verdict(s, block.cut, count, cites.len())?;
    let body = block_body(s.m, block, cites);
    put_frame(
        out,
        Ok(()),
        4,
        &body[..10 + 2 * (s.m as usize) + 2 * cites.len()],
    )
}
