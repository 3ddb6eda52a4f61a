// A frame of a body, put into the caller's buffer.
ghost use Rattle.encoding.specs.Body.{frame_bytes};
ghost use Rattle.encoding.specs.Writing.{Wrote, bounded};

use fields::{put_bytes, put_u16, put_u32};
use refusals::Refusal;

// The frame's length in bytes, or why nothing was written: the verdict on the values comes first, then a body that is longer
// than a frame can hold is refused by 4, and only then the room is looked at.
pub fn put_frame(
    out: &mut [u8],
    checked: Result<(), Refusal>,
    kind: u16,
    body: &[u8],
) -> Result<usize, Refusal>
    ensures { Wrote (bounded checked body.now) (frame_bytes kind body.now) out.old out.new result }
{
    checked?;
    let n = body.len();
    if 8192 < n {
        return Err(Refusal::BodyLength(0));
    }
    if out.len() < 6 + n {
        return Err(Refusal::BufferShort(6 + n));
    }
    put_u32(out, 0, (2 + n) as u32);
    put_u16(out, 4, kind);
    put_bytes(out, 6, body);
    Ok(6 + n)
}
