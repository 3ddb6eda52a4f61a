// The lists of a transaction's body. A list is a part of the body that starts where the one before it ended; its elements
// are read from that byte on.
ghost use Rattle.std.specs.Prelude.{drop, ◌≡◌};
ghost use Rattle.transactions.specs.Body.{credits_from, entry_in, operation_in, operations_from};

use fields::{byte_at, rest, u16_at, u32_at};

// The lists of a body, each from its first byte on.
pub fn debits(body: &[u8]) -> &[u8]
    ensures { result.now ≡ drop 4 body.now }
{
    rest(body, 4)
}

pub fn credits(body: &[u8]) -> &[u8]
    ensures { result.now ≡ drop (credits_from body.now) body.now }
{
    rest(body, 4 + 6 * (byte_at(body, 1) as usize))
}

pub fn operations(body: &[u8]) -> &[u8]
    ensures { result.now ≡ drop (operations_from body.now) body.now }
{
    rest(
        body,
        4 + 6 * (byte_at(body, 1) as usize) + 6 * (byte_at(body, 2) as usize),
    )
}

// The fields of a list's k-th element.
pub fn account_at(list: &[u8], k: u8) -> u16
    ensures { result ≡ (entry_in list.now k).account }
{
    u16_at(list, 6 * (k as usize))
}

pub fn amount_at(list: &[u8], k: u8) -> u32
    ensures { result ≡ (entry_in list.now k).amount }
{
    let at = 6 * (k as usize);
    u32_at(list, at + 2)
}

pub fn code_at(list: &[u8], k: u8) -> u8
    ensures { result ≡ (operation_in list.now k).code }
{
    byte_at(list, 6 * (k as usize))
}

pub fn register_at(list: &[u8], k: u8) -> u8
    ensures { result ≡ (operation_in list.now k).register }
{
    byte_at(list, 6 * (k as usize) + 1)
}

pub fn value_at(list: &[u8], k: u8) -> u32
    ensures { result ≡ (operation_in list.now k).value }
{
    u32_at(list, 6 * (k as usize) + 2)
}
