// One frame of a run, judged by the sheet so far: which kind is due, refusals 1 to 7 in their order, and the sheet then.
ghost use Rattle.std.specs.Prelude.{◌≡◌};
ghost use Rattle.frames.specs.Step.{header_loaded, judged, kind_due, loading_after, step_at};

use crate::balances::check_balances;
use crate::block::check_block;
use crate::frame::{Span, body, frame};
use crate::header::{check_header, header_ok};
use fields::u16_at;
use refusals::Refusal;
use transactions::check::check_transaction;

// The sheet so far: the header's numbers; stage 0 before the header, 1 after it, 2 after the balances; how many
// transactions were taken.
#[derive(Clone, Copy)]
pub struct Loading {
    pub m: u16,
    pub a: u16,
    pub g: u16,
    pub t: u16,
    pub stage: u8,
    pub loaded: u16,
}

// The kind that is due; 0 where there is none, as the numbers are not a header's.
pub fn kind_due(s: Loading) -> u16
    ensures { result ≡ kind_due s }
{
    if s.stage == 0 {
        return 1;
    }
    if !header_ok(s.m, s.a, s.g, s.t) {
        return 0;
    }
    if s.stage == 1 {
        return 2;
    }
    if s.loaded < s.t {
        return 3;
    }
    if s.loaded == s.t {
        return 4;
    }
    0
}

// Refusals 4 to 7, by the kind.
fn judge(s: Loading, kind: u16, b: &[u8], at: usize) -> Result<(), Refusal>
    ensures { result ≡ judged s kind b.now at }
{
    match kind {
        1 => check_header(b, at),
        2 => check_balances(b, at, s.a),
        3 => check_transaction(b, at, s.a, s.g),
        4 => check_block(b, at, s.m),
        _ => Err(Refusal::KindNotDue(at)),
    }
}

fn header_loaded(b: &[u8]) -> Loading
    ensures { result ≡ header_loaded b.now }
{
    Loading {
        m: u16_at(b, 0),
        a: u16_at(b, 2),
        g: u16_at(b, 4),
        t: u16_at(b, 6),
        stage: 1,
        loaded: 0,
    }
}

fn loading_after(s: Loading, kind: u16, b: &[u8]) -> Loading
    ensures { result ≡ loading_after s kind b.now }
{
    if kind == 1 {
        return header_loaded(b);
    }
    if kind == 2 {
        return Loading {
            stage: 2,
            loaded: 0,
            ..s
        };
    }
    if kind == 3 {
        if s.loaded < s.t {
            return Loading {
                stage: 2,
                loaded: s.loaded + 1,
                ..s
            };
        }
    }
    s
}

// The frame at an offset, judged: the sheet then and the next offset, or why it is turned away; None where the run ends.
pub fn next_frame(run: &[u8], at: usize, s: Loading) -> Result<Option<(Loading, usize)>, Refusal>
    ensures { result ≡ step_at run.now at s }
{
    let Some(Span { kind, end, .. }) = frame(run, at)? else {
        if kind_due(s) == 4 {
            return Ok(None);
        }
        return Err(Refusal::Short(at));
    };
    if kind != kind_due(s) {
        return Err(Refusal::KindNotDue(at));
    }
    let b = body(run, at);
    judge(s, kind, b, at)?;
    Ok(Some((loading_after(s, kind, b), end)))
}
