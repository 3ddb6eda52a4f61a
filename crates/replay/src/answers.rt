// The line of an answer, and whether the output ends with it.
ghost use Rattle.std.specs.Prelude.{◌≡◌};
ghost use Rattle.frames.specs.Frame.{body_at, frame_at};
ghost use Rattle.offers.specs.Offering.{reply_of};
ghost use Rattle.plain.specs.Offers.{values_in};
ghost use Rattle.replay.specs.Inner.{stops_at};
ghost use Rattle.replay.specs.Reading.{answer_line, end_of, ends_output};
ghost use Rattle.text.specs.Wrote.{Wrote};

use frames::block::block_of;
use frames::frame::{Span, body, frame};
use offers::answer::Answer;
use refusals::number;
use text::lines::{put_ok, put_refused};

pub fn put_answer(
    answer: Answer,
    run: &[u8],
    at: usize,
    m: u16,
    out: &mut [u8],
    place: usize,
) -> usize
    ensures { Wrote out.old place (answer_line (values_in (body_at run.now at) m) (reply_of answer)) out.new result }
{
    match answer {
        Answer::Accepted => {
            let block = block_of(body(run, at), m);
            let sequence = block.sequence;
            put_ok(out, place, block.instance, sequence.0)
        }
        Answer::Refused(r) => put_refused(out, place, number(r), refusals::place(r)),
        Answer::NoByte => place,
    }
}

// Refusals 1 to 7 end the output.
pub fn ends_output(answer: Answer) -> bool
    ensures { result ≡ ends_output (reply_of answer) }
{
    match answer {
        Answer::Accepted => false,
        Answer::Refused(r) => number(r) <= 7,
        Answer::NoByte => true,
    }
}

// Where the next frame begins.
pub fn next_frame(run: &[u8], at: usize) -> usize
    ensures { result ≡ end_of (frame_at run.now at) at }
{
    match frame(run, at) {
        Ok(Some(Span { end, .. })) => end,
        Err(_) => at,
        Ok(None) => at,
    }
}

// The output ends with this answer, or no whole frame stands here behind which it could go on.
pub fn stops(answer: Answer, at: usize, end: usize) -> bool
    ensures { result ≡ stops_at (reply_of answer) at end }
{
    if ends_output(answer) {
        return true;
    }
    end <= at
}
