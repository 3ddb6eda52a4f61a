// The ledger in the caller's 22 numbers.
ghost use Rattle.std.specs.Prelude.{min, get_or, set, ◌≡◌};
ghost use Rattle.rugxeni.specs.Numbers.{ledger_in, numbers_of};
ghost use Rattle.sums.specs.Seq.{fill};
ghost use Rattle.sums.specs.Test.{pick};

use fields::put;
use frames::step::Loading;
use ordering::count_at;
use state::ledger::Ledger;

// Number i; 0 where there is none.
pub fn number_at(numbers: &[u16], i: usize) -> u16
    ensures { result ≡ get_or numbers.now i 0 }
{
    numbers.get(i).copied().unwrap_or(0)
}

fn heights_in(numbers: &[u16]) -> [u16; 16]
    ensures { result ≡ (ledger_in numbers.now).heights }
{
    let mut heights = [0u16; 16];
    for j in 0..16usize {
        heights[j] = number_at(numbers, 6 + j);
    }
    heights
}

pub fn ledger_in(numbers: &[u16]) -> Ledger
    ensures { result ≡ ledger_in numbers.now }
{
    Ledger {
        loading: Loading {
            m: number_at(numbers, 0),
            a: number_at(numbers, 1),
            g: number_at(numbers, 2),
            t: number_at(numbers, 3),
            stage: number_at(numbers, 4).min(255) as u8,
            loaded: number_at(numbers, 5),
        },
        heights: heights_in(numbers),
    }
}

// Number i of a ledger.
fn number_of(ledger: Ledger, i: u16) -> u16
    ensures { result ≡ get_or (numbers_of ledger) i 0 }
{
    let loading = ledger.loading;
    match i {
        0 => loading.m,
        1 => loading.a,
        2 => loading.g,
        3 => loading.t,
        4 => loading.stage as u16,
        5 => loading.loaded,
        _ => count_at(ledger.heights, i - 6),
    }
}

fn write_ledger(numbers: &mut [u16], ledger: Ledger)
    ensures { numbers.new ≡ fill (numbers_of ledger) numbers.old }
{
    for i in 0..22u16 {
        put(numbers, i as usize, number_of(ledger, i));
    }
}

// The ledger is written where the call was taken; a refused one leaves the numbers as they were.
pub fn keep_ledger(numbers: &mut [u16], ledger: Ledger, taken: bool)
    ensures { numbers.new ≡ pick taken (fill (numbers_of ledger) numbers.old) numbers.old }
{
    if taken {
        write_ledger(numbers, ledger);
    }
}
