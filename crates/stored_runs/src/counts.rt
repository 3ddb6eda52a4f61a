// How many runs were read, and how many readings agree.
ghost use Rattle.std.specs.Prelude.{◌≤◌, ◌≡◌};
ghost use Rattle.stored_runs.specs.Counts.{added};
ghost use Rattle.sums.specs.Test.{bit};

#[derive(Clone, Copy, Default)]
pub struct Tally {
    pub runs: u64,
    pub agree: u64,
}

pub fn one_if(b: bool) -> u64
    ensures value { result ≡ bit b }
    ensures upper_bound { result ≤ 1 }
{
    u64::from(b)
}

// Those of two files.
pub fn together(a: Tally, b: Tally) -> Tally
    ensures runs_value { result.runs ≡ added a.runs b.runs }
    ensures agree_value { result.agree ≡ added a.agree b.agree }
{
    Tally {
        runs: a.runs.saturating_add(b.runs),
        agree: a.agree.saturating_add(b.agree),
    }
}
