// Reads a run from standard input, and writes its reading to standard output (document 01, "One reading, whole").
// A run that cannot be read to its end has no reading: nothing is written to standard output then, and a line to standard error.

#![tactic(auto)]

mod input;
mod output;

use fields::front;
use input::read_input;
use output::write_output;
use report::report::report_run;
use std::io;
use std::io::ErrorKind;
use std::process::ExitCode;

// A proved loop has to end, and nothing says that an input does. So many calls are enough for a run, or its reading, that goes
// byte by byte.
const CALLS: u32 = 1048576;

// The status that a shell gives a program which the signal for a pipe that nobody reads has ended. The system ends no program of
// Rattle's so: the write fails, and the program ends with this status.
const UNREAD: u8 = 141;

// Writes the reading, all of it.
fn write_reading(rt: &HostRuntime, run: &[u8]) -> io::Result<()> {
    let mut sheet = [0u8; 110592];
    let mut ranks = [0u32; 2048];
    let mut cuts = [0u16; 32768];
    let mut cites = [0u16; 65536];
    let mut good = [0u8; 65536];
    let mut counts = [0u32; 2048];
    let mut table = [0u8; 1024];
    let mut order = [0u16; 2048];
    let mut out = [0u8; 262144];
    let done = report_run(
        run,
        &mut sheet,
        &mut ranks,
        &mut cuts,
        &mut cites,
        &mut good,
        &mut counts,
        &mut table,
        &mut order,
        &mut out,
    );
    write_output(rt, &mut rt.stdout(), front(&out, done.unwrap_or(0)))
}

// Where standard error cannot be written either, nobody is told.
fn say(rt: &impl Eprint, what: &str) {
    let _ = eprintln!(rt; "readrun: {what}");
}

// One byte more than a run may have: where it is there the run is long, whatever follows.
fn main(rt: HostRuntime) -> ExitCode {
    let mut space = [0u8; 65537];
    let Some(n) = read_input(&mut rt.stdin(), &mut space) else {
        say(&rt, "the run could not be read");
        return ExitCode::SUCCESS;
    };
    match write_reading(&rt, front(&space, n)) {
        Ok(()) => ExitCode::SUCCESS,
        Err(e) if e.kind() == ErrorKind::BrokenPipe => ExitCode::from(UNREAD),
        Err(_) => {
            say(&rt, "the reading could not be written");
            ExitCode::SUCCESS
        }
    }
}
