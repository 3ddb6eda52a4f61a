// The full view: everything accepted.
ghost use Rattle.std.specs.Prelude.{◌≡◌};
ghost use Rattle.ordering.specs.Table.{count_in};
ghost use Rattle.readings.specs.Inner.{places_in};

use ordering::{count_at, usable_counts};
use state::ledger::Ledger;

// How many citation places of each instance it holds: 32 for each block.
pub fn full_view(ledger: Ledger, ranks: &[u32]) -> [u16; 16]
    ensures { count_in result ≡ places_in ledger ranks.now }
{
    let heights = ledger.heights;
    let blocks = usable_counts(ranks, heights);
    let mut view = [0u16; 16];
    for j in 0..16u16 {
        let at = j as usize;
        view[at] = count_at(blocks, j) * 32;
    }
    view
}
