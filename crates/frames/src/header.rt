// The header (document 01, kind 1: head).
ghost use Rattle.std.specs.Prelude.{◌≡◌};
ghost use Rattle.frames.specs.Header.{check_header, header_ok};

use fields::u16_at;
use refusals::Refusal;

// m instances, a accounts, g registers, t transactions.
#[derive(Clone, Copy)]
pub struct Header {
    pub m: u16,
    pub a: u16,
    pub g: u16,
    pub t: u16,
}

pub fn header_ok(m: u16, a: u16, g: u16, t: u16) -> bool
    ensures { result ≡ header_ok m a g t }
{
    if m < 1 {
        return false;
    }
    if 16 < m {
        return false;
    }
    if a < 1 {
        return false;
    }
    if 1024 < a {
        return false;
    }
    if 64 < g {
        return false;
    }
    t <= 1024
}

pub(crate) fn check_header(b: &[u8], at: usize) -> Result<(), Refusal>
    ensures { result ≡ check_header b.now at }
{
    if b.len() != 8 {
        return Err(Refusal::BodyLength(at));
    }
    if header_ok(u16_at(b, 0), u16_at(b, 2), u16_at(b, 4), u16_at(b, 6)) {
        Ok(())
    } else {
        Err(Refusal::OutOfRange(at))
    }
}
