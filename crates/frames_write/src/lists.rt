// Lists of numbers, stored one after the other.
ghost use Rattle.std.specs.Prelude.{◌*◌, ◌+◌, ◌≤◌, length, ◌≡◌};
ghost use Rattle.std.proofs.lemmas.List.Edits.{sets};
ghost use Rattle.encoding.specs.Body.{balances_body, numbers_bytes};

use fields::{put_u16, put_u64};

// The numbers of a list, two bytes each.
pub(crate) fn put_numbers(out: &mut [u8], at: usize, list: &[u16])
    requires { at + 2 * length list.now ≤ length out.old }
    ensures { out.new ≡ sets out.old at (numbers_bytes list.now) }
{
    for (k, &number) in list.iter().enumerate() {
        put_u16(out, at + 2 * k, number);
    }
}

// The balances of a list, eight bytes each, from the start on.
pub(crate) fn put_balances(out: &mut [u8], list: &[u64])
    requires { 8 * length list.now ≤ length out.old }
    ensures { out.new ≡ sets out.old 0 (balances_body list.now) }
{
    for (k, &balance) in list.iter().enumerate() {
        put_u64(out, 8 * k, balance);
    }
}
