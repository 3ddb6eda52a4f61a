// The frame of the starting balances (document 01, kind 2: starts).
ghost use Rattle.std.specs.Prelude.{◌*◌, ◌≤◌, length, take, ◌≡◌};
ghost use Rattle.encoding.specs.Body.{balances_body, frame_bytes};
ghost use Rattle.encoding.specs.Verdict.{balances_verdict};
ghost use Rattle.encoding.specs.Writing.{Wrote};
ghost use Rattle.frames.specs.Balances.{balances_ok};

use crate::lists::put_balances;
use encoding::emit::put_frame;
use frames::step::{Loading, kind_due};
use refusals::Refusal;

// The longest body: eight bytes for each of 1,024 accounts.
const MOST: usize = 8192;

// Each is at most 2^40.
fn all_within(list: &[u64]) -> bool
    ensures { result ≡ balances_ok list.now }
{
    list.iter().all(|balance| *balance <= 1099511627776)
}

#[tactic(auto, unfolding(encoding::specs::Verdict::balances_verdict, sums::specs::Test::pick))]
fn balances_verdict(s: Loading, list: &[u64]) -> Result<(), Refusal>
    ensures { result ≡ balances_verdict s list.now }
{
    if kind_due(s) != 2 {
        return Err(Refusal::KindNotDue(0));
    }
    if list.len() != s.a as usize {
        return Err(Refusal::BodyLength(0));
    }
    if !all_within(list) {
        return Err(Refusal::OutOfRange(0));
    }
    Ok(())
}

// The body, and zeros after it.
fn balances_body(list: &[u64]) -> [u8; MOST]
    requires { length list.now ≤ 1024 }
    ensures { take (8 * length list.now) result ≡ balances_body list.now }
{
    let mut body = [0u8; MOST];
    put_balances(&mut body, list);
    body
}

pub fn write_balances(out: &mut [u8], s: Loading, list: &[u64]) -> Result<usize, Refusal>
    ensures { Wrote (balances_verdict s list.now) (frame_bytes 2 (balances_body list.now)) out.old out.new result }
{
    balances_verdict(s, list)?;
    let body = balances_body(list);
    put_frame(out, Ok(()), 2, &body[..8 * list.len()])
}
