// Bytes read from a file.
ghost use Rattle.std.specs.Prelude.{◌≤◌, length};

use std::io::Read;

// Reads until the buffer is full, the input ends or a read fails, and tells how many bytes it put at the front.
pub fn read_full<R: Read>(input: &mut R, space: &mut [u8]) -> usize
    ensures { result ≤ length space.new }
{
    let mut done = 0;
    while done < space.len() {
        match input.read(&mut space[done..]) {
            Ok(0) | Err(_) => break,
            Ok(n) => done += n,
        }
    }
    done
}
