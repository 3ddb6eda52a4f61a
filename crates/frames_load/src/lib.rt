// The sheet of a run, loaded frame by frame into the caller's cells.

#![tactic(auto)]

ghost use Rattle.std.specs.Prelude.{◌≡◌};
ghost use Rattle.frames_load.specs.Load.{LoadStep, body_stored, room};

use fields::put_bytes;
use frames::frame::body;
use frames::step::{Loading, kind_due, next_frame};
use refusals::Refusal;

// The bytes that the sheet takes, once its header is known.
pub fn room_of(s: Loading) -> usize
    ensures { result ≡ room s }
{
    if s.stage == 0 {
        return 0;
    }
    8 * (s.a as usize) + 100 * (s.t as usize)
}

// A body that was taken, to its place.
fn store(sheet: &mut [u8], s: Loading, b: &[u8])
    ensures { sheet.new ≡ body_stored s b.now sheet.old }
{
    let kind = kind_due(s);
    match kind {
        2 => put_bytes(sheet, 0, b),
        3 => put_bytes(sheet, 8 * (s.a as usize) + 100 * (s.loaded as usize), b),
        _ => {}
    }
}

// The frame at an offset, judged by the sheet so far, and stored.
pub fn load(
    run: &[u8],
    at: usize,
    s: Loading,
    sheet: &mut [u8],
) -> Result<Option<(Loading, usize)>, Refusal>
    ensures { LoadStep run.now at s sheet.old sheet.new result }
{
    let least = room_of(s);
    if sheet.len() < least {
        return Err(Refusal::BufferShort(least));
    }
    let Some((next, end)) = next_frame(run, at, s)? else {
        return Ok(None);
    };
    store(sheet, s, body(run, at));
    Ok(Some((next, end)))
}
