// Bytes, words, numbers and lines. Every writer stores as far as the buffer goes, and answers the place after what it stored.
ghost use Rattle.std.specs.Prelude.{[], ◌∷◌, map};
ghost use Rattle.text.specs.Text.{decimal, field, line};
ghost use Rattle.text.specs.Wrote.{Wrote};

pub(crate) fn put_byte(out: &mut [u8], at: usize, b: u8) -> usize
    ensures { Wrote out.old at (b ∷ []) out.new result }
{
    if at < out.len() {
        out[at] = b;
        at + 1
    } else {
        at
    }
}

pub(crate) fn put_word(out: &mut [u8], at: usize, word: &[u8]) -> usize
    ensures { Wrote out.old at word.now out.new result }
{
    let mut next = at;
    for &b in word {
        next = put_byte(out, next, b);
    }
    next
}

fn put_decimal(out: &mut [u8], at: usize, n: u64) -> usize
    ensures { Wrote out.old at (decimal n) out.new result }
{
    if n < 10 {
        put_byte(out, at, b'0' + n as u8)
    } else {
        let next = put_decimal(out, at, n / 10);
        put_byte(out, next, b'0' + (n % 10) as u8)
    }
}

// A space, and the number n.
pub(crate) fn put_field(out: &mut [u8], at: usize, n: u64) -> usize
    ensures { Wrote out.old at (field (decimal n)) out.new result }
{
    let next = put_byte(out, at, b' ');
    put_decimal(out, next, n)
}

// A line: a word, and numbers.
pub(crate) fn put_line(out: &mut [u8], at: usize, word: &[u8], numbers: &[u64]) -> usize
    ensures { Wrote out.old at (line word.now (map decimal numbers.now)) out.new result }
{
    let mut next = put_word(out, at, word);
    for &n in numbers {
        next = put_field(out, next, n);
    }
    put_byte(out, next, b'\n')
}
