// Fields of a frame: little-endian numbers in the caller's bytes, read and stored, and parts of those bytes. Nothing here
// is asked of the caller: bytes past the end are read as 0 and are not stored.

#![tactic(auto)]

ghost use Rattle.std.specs.Prelude.{ℕ, drop, get_or, set, take, ◌≡◌, ◌+◌, ◌<◌};
ghost use Rattle.std.proofs.lemmas.List.Edits.{sets};
ghost use Rattle.fields.specs.Number.{le, store_number};

// The byte at a place; 0 past the end.
pub fn byte_at(s: &[u8], at: usize) -> u8
    ensures { result ≡ get_or s.now at 0 }
{
    s.get(at).copied().unwrap_or(0)
}

// The N bytes from a place on; those past the end are 0.
fn bytes_at<const N: usize>(s: &[u8], at: usize) -> [u8; N]
    ensures { (k : ℕ) → k < N → get_or result k 0 ≡ get_or s.now (at + k) 0 }
{
    let from = rest(s, at);
    let mut bytes = [0; N];
    for (k, byte) in bytes.iter_mut().enumerate() {
        *byte = byte_at(from, k);
    }
    bytes
}

// The number in the two bytes from a place on; bytes past the end count as 0.
pub fn u16_at(s: &[u8], at: usize) -> u16
    ensures { result ≡ le 2 s.now at }
{
    u16::from_le_bytes(bytes_at(s, at))
}

pub fn u32_at(s: &[u8], at: usize) -> u32
    ensures { result ≡ le 4 s.now at }
{
    u32::from_le_bytes(bytes_at(s, at))
}

pub fn u64_at(s: &[u8], at: usize) -> u64
    ensures { result ≡ le 8 s.now at }
{
    u64::from_le_bytes(bytes_at(s, at))
}

// The bytes from a place on, none past the end.
pub fn rest(s: &[u8], at: usize) -> &[u8]
    ensures { result.now ≡ drop at s.now }
{
    s.get(at..).unwrap_or(&[])
}

// At most the first n bytes.
pub fn front(s: &[u8], n: usize) -> &[u8]
    ensures { result.now ≡ take n s.now }
{
    s.get(..n).unwrap_or(s)
}

pub fn put_byte(out: &mut [u8], at: usize, b: u8)
    ensures { out.new ≡ set out.old at b }
{
    if at < out.len() {
        out[at] = b;
    }
}

// The number v in the two bytes from a place on.
pub fn put_u16(out: &mut [u8], at: usize, v: u16)
    ensures { out.new ≡ store_number 2 out.old at v }
{
    put_bytes(out, at, &u16::to_le_bytes(v));
}

pub fn put_u32(out: &mut [u8], at: usize, v: u32)
    ensures { out.new ≡ store_number 4 out.old at v }
{
    put_bytes(out, at, &u32::to_le_bytes(v));
}

pub fn put_u64(out: &mut [u8], at: usize, v: u64)
    ensures { out.new ≡ store_number 8 out.old at v }
{
    put_bytes(out, at, &u64::to_le_bytes(v));
}

// All bytes of a slice, stored from a place on as far as the buffer goes.
pub fn put_bytes(out: &mut [u8], at: usize, bytes: &[u8])
    ensures { out.new ≡ sets out.old at bytes.now }
{
    if out.len() <= at {
        return;
    }
    for (k, byte) in bytes.iter().enumerate() {
        put_byte(out, at + k, *byte);
    }
}

// A value at a place of any cells; past the end nothing is stored.
pub fn put<T: Copy>(cells: &mut [T], at: usize, value: T)
    ensures { cells.new ≡ set cells.old at value }
{
    if at < cells.len() {
        cells[at] = value;
    }
}
