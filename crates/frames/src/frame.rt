// Frames in a run: where each stands, and its body as a part of the caller's bytes (refusals 1 and 2).
ghost use Rattle.std.specs.Prelude.{◌≡◌, ◌+◌};
ghost use Rattle.frames.specs.Frame.{body_at, frame_at, start_of};

use fields::{u16_at, u32_at};
use refusals::Refusal;

// A frame's kind, and where its body starts and ends; that end is the next frame's offset.
#[derive(Clone, Copy, Debug, PartialEq, Eq)]
pub struct Span {
    pub kind: u16,
    pub start: usize,
    pub end: usize,
}

// What stands at an offset: a frame, or why there is none; None where no byte is left.
pub fn frame(run: &[u8], at: usize) -> Result<Option<Span>, Refusal>
    ensures { result ≡ frame_at run.now at }
{
    let n = run.len();
    if n <= at {
        return Ok(None);
    }
    if n < at + 4 {
        return Err(Refusal::Short(at));
    }
    let l = u32_at(run, at) as usize;
    if l < 2 {
        return Err(Refusal::BadLength(at));
    }
    if 8194 < l {
        return Err(Refusal::BadLength(at));
    }
    if n < at + 4 + l {
        return Err(Refusal::Short(at));
    }
    Ok(Some(Span {
        kind: u16_at(run, at + 4),
        start: at + 6,
        end: at + 4 + l,
    }))
}

// The body of the frame at an offset, "as that stretch of the caller's own bytes": its content, and that it lies in the run's own memory from its start on.
// Empty where there is no frame.
pub fn body(run: &[u8], at: usize) -> &[u8]
    ensures { (result.now ≡ body_at run.now at)
        × (result.ref_ptr.0 ≡ run.entry.ref_ptr.0)
        × (result.ref_ptr.1 ≡ run.entry.ref_ptr.1 + start_of (frame_at run.now at)) }
{
    match frame(run, at) {
        Ok(Some(Span { start, end, .. })) => &run[start..end],
        Err(_) => &run[..0],
        Ok(None) => &run[..0],
    }
}
