// Where a frame ends, for whoever walks over a run.
ghost use Rattle.frames.specs.Frame.{frame_at};
ghost use Rattle.rugxeni.specs.Numbers.{Said, frame_kind, frame_number, frame_place};

use crate::replies::say;
use frames::frame::{Span, frame};
use refusals::{Refusal, number, place};

fn say_frame(framed: Result<Option<Span>, Refusal>, told: &mut [u64]) -> u16
    ensures { Said (frame_number framed) (frame_place framed) (frame_kind framed) result told.old told.new }
{
    match framed {
        Ok(Some(span)) => say(0, span.end, span.kind as u32, told),
        Err(r) => say(number(r) as u16, place(r), 0, told),
        Ok(None) => say(255, 0, 0, told),
    }
}

// The frame at the offset `at`. Returns 0, and in `told` where the next frame begins and the frame's kind; 1 or 2, and the
// offset, where no whole frame stands there; or 255 where no byte is left.
#[unsafe(no_mangle)]
pub extern "C" fn rugxeni_frame(bytes: &[u8], at: usize, told: &mut [u64]) -> u16
    ensures { Said
        (frame_number (frame_at bytes.now at))
        (frame_place (frame_at bytes.now at))
        (frame_kind (frame_at bytes.now at))
        result
        told.old
        told.new }
{
    let framed = frame(bytes, at);
    say_frame(framed, told)
}
