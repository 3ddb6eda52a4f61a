// Standard output, written whole or not: a text that is cut off is no reading.
ghost use Rattle.std.specs.Prelude.{OnOk};
ghost use Rattle.std.specs.Io.KnownBytes.{Appends};

use crate::CALLS;
use std::fs::OpenFile;
use std::io::{ErrorKind, Write};
use std::rt::Files;
use std::{fs, io};

// Standard output, as a file.
const OUTPUT: &str = "/proc/self/fd/1";

// Writes until all of the text is written or a write fails. One that a signal interrupted did not fail: it is made again.
fn write_text<W: Write>(output: &mut W, text: &[u8]) -> io::Result<()>
    ensures { OnOk result (Appends (W.contents output.old) (W.contents output.new) text.now) }
{
    let mut rest = text;
    for _ in 0..CALLS {
        if rest.is_empty() {
            return Ok(());
        }
        match output.write(rest) {
            Ok(0) => return Err(ErrorKind::WriteZero.into()),
            Ok(n) => rest = &rest[n..],
            Err(e) if e.kind() == ErrorKind::Interrupted => {}
            Err(e) => return Err(e),
        }
    }
    if rest.is_empty() {
        return Ok(());
    }
    Err(ErrorKind::TimedOut.into())
}

// A file system may say only late that it had no room, so a file is asked to store what was written. Where standard output is no
// file, or cannot be asked, there is nothing more to say.
fn store<R: Files>(rt: &R) -> io::Result<()> {
    let Ok(output) = fs::metadata(rt, OUTPUT) else {
        return Ok(());
    };
    if !output.is_file() {
        return Ok(());
    }
    let Ok(file) = fs::open(rt, OUTPUT) else {
        return Ok(());
    };
    match file.sync_data() {
        Ok(()) => Ok(()),
        Err(e) if e.kind() == ErrorKind::InvalidInput => Ok(()),
        Err(_) => Err(ErrorKind::StorageFull.into()),
    }
}

// The text counts as written where all of it is written and stored.
pub fn write_output<R: Files, W: Write>(rt: &R, output: &mut W, text: &[u8]) -> io::Result<()>
    ensures { OnOk result (Appends (W.contents output.old) (W.contents output.new) text.now) }
{
    write_text(output, text)?;
    store(rt)
}
