// The header's frame (document 01, kind 1: head).
ghost use Rattle.std.specs.Prelude.{◌≡◌};
ghost use Rattle.encoding.specs.Body.{frame_bytes, header_body};
ghost use Rattle.encoding.specs.Verdict.{header_verdict};
ghost use Rattle.encoding.specs.Writing.{Wrote};

use encoding::emit::put_frame;
use fields::put_u16;
use frames::header::{Header, header_ok};
use frames::step::{Loading, kind_due};
use refusals::Refusal;

#[tactic(auto, unfolding(encoding::specs::Verdict::header_verdict, sums::specs::Test::pick))]
fn header_verdict(s: Loading, h: Header) -> Result<(), Refusal>
    ensures { result ≡ header_verdict s h }
{
    if kind_due(s) != 1 {
        return Err(Refusal::KindNotDue(0));
    }
    if !header_ok(h.m, h.a, h.g, h.t) {
        return Err(Refusal::OutOfRange(0));
    }
    Ok(())
}

#[tactic(auto, using(crate::proofs::BodyStores::header_stores))]
fn header_body(h: Header) -> [u8; 8]
    ensures { result ≡ header_body h }
{
    let mut body = [0u8; 8];
    put_u16(&mut body, 0, h.m);
    put_u16(&mut body, 2, h.a);
    put_u16(&mut body, 4, h.g);
    put_u16(&mut body, 6, h.t);
    body
}

pub fn write_header(out: &mut [u8], s: Loading, h: Header) -> Result<usize, Refusal>
    ensures { Wrote (header_verdict s h) (frame_bytes 1 (header_body h)) out.old out.new result }
{
    put_frame(out, header_verdict(s, h), 1, &header_body(h))
}
