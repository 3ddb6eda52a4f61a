// Standard input, read to its end. Where a read fails there is no run.
ghost use Rattle.std.specs.Prelude.{IfSome, ◌≤◌, length};

use crate::CALLS;
use std::io::{ErrorKind, Read};

// Reads until the buffer is full or the input ends, and tells how many bytes it put at the front; none where a read fails. A read
// that a signal interrupted did not fail: it is made again.
fn read_run<R: Read>(input: &mut R, space: &mut [u8]) -> Option<usize>
    ensures { IfSome result (λ n. n ≤ length space.old) }
{
    let mut n = 0;
    for _ in 0..CALLS {
        match input.read(&mut space[n..]) {
            Ok(0) => return Some(n),
            Ok(count) => n += count,
            Err(e) if e.kind() == ErrorKind::Interrupted => {}
            Err(_) => return None,
        }
        if n == space.len() {
            return Some(n);
        }
    }
    None
}

// Reads on, 65,536 bytes at a time, which nobody looks at. Whether no read failed.
fn read_rest<R: Read>(input: &mut R) -> bool {
    let mut space = [0u8; 65536];
    for _ in 0..CALLS {
        match input.read(&mut space) {
            Ok(0) => return true,
            Ok(_) => {}
            Err(e) if e.kind() == ErrorKind::Interrupted => {}
            Err(_) => return false,
        }
    }
    true
}

// How many bytes of a run the buffer has now; none where one read failed: what came before it is not a run, and not a long one
// either. What follows a full buffer is read as well, so that whoever writes a long run to a pipe is not cut off; of an input that
// has no end, 64 GiB at most.
pub fn read_input<R: Read>(input: &mut R, space: &mut [u8]) -> Option<usize>
    ensures { IfSome result (λ n. n ≤ length space.old) }
{
    let n = read_run(input, space)?;
    if n == space.len() && !read_rest(input) {
        return None;
    }
    Some(n)
}
