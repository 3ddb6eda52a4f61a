// Reads stored runs, each with the reading that the second engine took of it, and prints how many readings are the same
// byte for byte: a line for each group, which is a file of data/, and one for all of them.
//
// `crosscheck stored` (tests/) writes the files. An entry is the run's length and the text's in four bytes each, the run,
// the text.

#![tactic(auto)]

mod counts;
mod input;
mod texts;

ghost use Rattle.std.specs.Prelude.{◌≤◌};

use counts::{Tally, one_if, together};
use fields::{front, u32_at};
use input::read_full;
use report::report::report_run;
use std::io::Read;
use std::{fs, io};
use texts::same;

// The groups, each a file.
const GROUPS: [&str; 12] = [
    "edges",
    "rules",
    "empty",
    "empty_views",
    "share",
    "cut_off",
    "sheets",
    "slips",
    "blocks",
    "refusals",
    "limits",
    "generated",
];

// Fills the first n bytes of a buffer from a file. Whether the buffer and the file have so many.
fn fill<R: Read>(file: &mut R, space: &mut [u8], n: usize) -> bool {
    match space.get_mut(..n) {
        Some(front) => read_full(file, front) == n,
        None => false,
    }
}

// Whether the reading of a run is the given text.
fn agrees(run: &[u8], text: &[u8]) -> bool {
    let mut sheet = [0u8; 110592];
    let mut ranks = [0u32; 2048];
    let mut cuts = [0u16; 32768];
    let mut cites = [0u16; 65536];
    let mut good = [0u8; 65536];
    let mut counts = [0u32; 2048];
    let mut table = [0u8; 1024];
    let mut order = [0u16; 2048];
    let mut out = [0u8; 262144];
    let done = report_run(
        run,
        &mut sheet,
        &mut ranks,
        &mut cuts,
        &mut cites,
        &mut good,
        &mut counts,
        &mut table,
        &mut order,
        &mut out,
    );
    same(front(&out, done.unwrap_or(0)), text)
}

// Takes the next entry of a file, and tells whether the reading of its run is its text: None at the file's end, and false where the
// entry is cut off, or too long to be a run and its reading.
fn next_entry<R: Read>(file: &mut R) -> Option<bool> {
    let mut head = [0u8; 8];
    if read_full(file, &mut head) == 0 {
        return None;
    }
    let run = u32_at(&head, 0) as usize;
    let text = u32_at(&head, 4) as usize;
    let mut runs = [0u8; 65537];
    let mut texts = [0u8; 262144];
    if !fill(file, &mut runs, run) || !fill(file, &mut texts, text) {
        return Some(false);
    }
    Some(agrees(front(&runs, run), front(&texts, text)))
}

// The entries of a file, 4,096 at most: nothing says that a file ends.
fn tally<R: Read>(file: &mut R) -> Tally
    ensures agree_le_runs { result.agree ≤ result.runs }
    ensures runs_bound { result.runs ≤ 4096 }
{
    let mut runs = 0u64;
    let mut agree = 0u64;
    for _ in 0..4096u32 {
        let Some(agrees) = next_entry(file) else {
            break;
        };
        runs += 1;
        agree += one_if(agrees);
    }
    Tally { runs, agree }
}

// The system's words for an error, without their number.
fn words_of(text: &str) -> &str {
    match text.split_once(" (os error ") {
        Some((words, _)) => words,
        None => text,
    }
}

// Says to standard error which file cannot be opened, and why.
fn say_why(rt: &(impl Eprint + AllocGlobal), name: &str, error: io::Error) {
    match format!(in rt.alloc(); "{error}") {
        Ok(text) => {
            let words = words_of(text.as_str());
            let _ = eprintln!(rt; "{name}: {words}");
        }
        Err(_) => {
            let _ = eprintln!(rt; "{name}: {error}");
        }
    }
}

// A write that fails is let go, here and below, and the next one is made.
fn print_tally(rt: &impl Print, found: Tally) {
    let _ = print!(rt; "{}", found.runs);
    let _ = print!(rt; " runs, ");
    let _ = print!(rt; "{}", found.agree);
    let _ = print!(rt; " agree\n");
}

// The entries of the file of a name, which are printed.
fn group(rt: &HostRuntime, name: &str) -> Tally {
    match fs::open(rt, name) {
        Ok(mut file) => {
            let found = tally(&mut file);
            let _ = print!(rt; "{name}");
            let _ = print!(rt; ": ");
            print_tally(rt, found);
            found
        }
        Err(error) => {
            say_why(rt, name, error);
            Tally::default()
        }
    }
}

fn main(rt: HostRuntime) {
    let mut all = Tally::default();
    for name in GROUPS {
        all = together(all, group(&rt, name));
    }
    print_tally(&rt, all);
}
