// The starting balances (document 01, kind 2: starts).
ghost use Rattle.std.specs.Prelude.{◌≡◌};
ghost use Rattle.frames.specs.Balances.{balances_of, balances_ok, check_balances};

use fields::u64_at;
use refusals::Refusal;

fn balances_ok(a: u16, b: &[u8]) -> bool
    ensures { result ≡ balances_ok (balances_of a b.now) }
{
    for k in 0..a {
        if 1099511627776 < u64_at(b, 8 * (k as usize)) {
            return false;
        }
    }
    true
}

pub(crate) fn check_balances(b: &[u8], at: usize, a: u16) -> Result<(), Refusal>
    ensures { result ≡ check_balances b.now at a }
{
    if b.len() != 8 * (a as usize) {
        return Err(Refusal::BodyLength(at));
    }
    if balances_ok(a, b) {
        Ok(())
    } else {
        Err(Refusal::OutOfRange(at))
    }
}
