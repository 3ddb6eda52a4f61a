// The ledger's own numbers.
ghost use Rattle.std.specs.Prelude.{◌≡◌};
ghost use Rattle.state.specs.State.{complete, fresh_ledger, sizes_of};

use frames::step::{Loading, kind_due};
use sheets::sheet::Sizes;

// The sheet so far and how many blocks of each instance are accepted. All else lies in the caller's buffers.
#[derive(Clone, Copy)]
pub struct Ledger {
    pub loading: Loading,
    pub heights: [u16; 16],
}

// A ledger with no sheet yet.
pub fn fresh() -> Ledger
    ensures { result ≡ fresh_ledger }
{
    Ledger {
        loading: Loading {
            m: 0,
            a: 0,
            g: 0,
            t: 0,
            stage: 0,
            loaded: 0,
        },
        heights: [0u16; 16],
    }
}

// Whether the sheet is complete, so that blocks are due.
pub fn is_complete(ledger: Ledger) -> bool
    ensures { result ≡ complete ledger }
{
    let loading = ledger.loading;
    kind_due(loading) == 4
}

// The numbers of the sheet's header.
pub fn sizes(ledger: Ledger) -> Sizes
    ensures { result ≡ sizes_of ledger }
{
    let loading = ledger.loading;
    Sizes {
        m: loading.m,
        a: loading.a,
        g: loading.g,
        t: loading.t,
    }
}
