// The least lengths of the buffers that an offer lends (docs/BUFFERS.md), and refusal 16.
ghost use Rattle.std.specs.Prelude.{[], ◌∷◌, ◌≡◌, ltb};
ghost use Rattle.admission.specs.Replies.{reply_to};
ghost use Rattle.state.specs.Lengths.{least_lengths, needs_list};
ghost use Rattle.plain.specs.Answer.{refuse};
ghost use Rattle.plain.specs.Plain.{lent_answer};

use crate::ledger::Ledger;
use refusals::Refusal;

#[derive(Clone, Copy)]
pub struct Lengths {
    pub sheet: usize,
    pub ranks: usize,
    pub cuts: usize,
    pub cites: usize,
    pub good: usize,
    pub counts: usize,
    pub table: usize,
    pub order: usize,
}

// What a ledger with this header needs.
pub fn least_lengths(ledger: Ledger) -> Lengths
    ensures { result ≡ least_lengths ledger }
{
    let loading = ledger.loading;
    let m = loading.m as usize;
    let t = loading.t as usize;
    Lengths {
        sheet: 8 * (loading.a as usize) + 100 * t,
        ranks: 128 * m,
        cuts: 2048 * m,
        cites: 4096 * m,
        good: 4096 * m,
        counts: 2 * t,
        table: t,
        order: 128 * m,
    }
}

// Refusal 16 where one buffer is shorter than it must be.
pub fn check_room(least: usize, lent: usize) -> Result<(), Refusal>
    ensures { reply_to result ≡ refuse (ltb lent least) 16 least }
{
    if lent < least {
        return Err(Refusal::BufferShort(least));
    }
    Ok(())
}

// Refusal 16 at the first buffer that is shorter than it must be.
pub fn check_lengths(least: Lengths, lent: Lengths) -> Result<(), Refusal>
    ensures { reply_to result ≡ lent_answer (needs_list least) (needs_list lent) }
{
    check_room(least.sheet, lent.sheet)?;
    check_room(least.ranks, lent.ranks)?;
    check_room(least.cuts, lent.cuts)?;
    check_room(least.cites, lent.cites)?;
    check_room(least.good, lent.good)?;
    check_room(least.counts, lent.counts)?;
    check_room(least.table, lent.table)?;
    check_room(least.order, lent.order)
}
