// The reading of a run, whole, written into the caller's buffer.
ghost use Rattle.std.specs.Prelude.{true, ◌≡◌};
ghost use Rattle.replay.specs.Inner.{Ample};
ghost use Rattle.report.specs.Inner.{PutsOpened};
ghost use Rattle.report.specs.Reports.{Spared};
ghost use Rattle.replay.specs.Reading.{reading_text};
ghost use Rattle.settlement.specs.Tables.{buffers};
ghost use Rattle.state.specs.State.{complete, kept};
ghost use Rattle.text.specs.Wrote.{Wrote};

use closing::closing::put_readings;
use refusals::{number, place};
use replay::blocks::put_blocks;
use replay::opening::open_run;
use state::ledger::{Ledger, sizes};
use text::lines::{put_long, put_refused, put_run};

// From the `run` line on, the sheet being complete.
fn put_opened(
    ledger: Ledger,
    sheet: &[u8],
    ranks: &mut [u32],
    cuts: &mut [u16],
    cites: &mut [u16],
    good: &mut [u8],
    counts: &mut [u32],
    table: &mut [u8],
    order: &mut [u16],
    run: &[u8],
    at: usize,
    out: &mut [u8],
) -> usize
    requires { (complete ledger ≡ true)
        × Ample (kept sheet.now ranks.old cuts.old cites.old good.old) (buffers counts.old table.old order.old) }
    ensures { PutsOpened
        run.now
        at ledger
        (kept sheet.now ranks.old cuts.old cites.old good.old)
        out.old
        out.new
        result }
{
    let z = sizes(ledger);
    let start = put_run(out, 0, z.m, z.a, z.g, z.t);
    let done = put_blocks(
        ledger, sheet, ranks, cuts, cites, good, counts, table, order, run, at, out, start,
    );
    if done.ended {
        return done.place;
    }
    put_readings(
        done.ledger,
        sheet,
        ranks,
        cites,
        good,
        counts,
        table,
        order,
        out,
        done.place,
    )
}

// The whole text. Returns the place after it.
fn put_reading(
    run: &[u8],
    sheet: &mut [u8],
    ranks: &mut [u32],
    cuts: &mut [u16],
    cites: &mut [u16],
    good: &mut [u8],
    counts: &mut [u32],
    table: &mut [u8],
    order: &mut [u16],
    out: &mut [u8],
) -> usize
    requires { Ample (kept sheet.old ranks.old cuts.old cites.old good.old) (buffers counts.old table.old order.old) }
    ensures { Wrote out.old 0 (reading_text run.now) out.new result }
{
    if 65536 < run.len() {
        return put_long(out, 0);
    }
    let opened = open_run(run, sheet);
    let answer = opened.answer;
    match answer {
        Err(r) => put_refused(out, 0, number(r), place(r)),
        Ok(()) => put_opened(
            opened.ledger,
            sheet,
            ranks,
            cuts,
            cites,
            good,
            counts,
            table,
            order,
            run,
            opened.at,
            out,
        ),
    }
}

// The same with no more of each buffer than the largest sheet needs: the rest is not lent, so it stays.
pub fn put_within(
    run: &[u8],
    sheet: &mut [u8],
    ranks: &mut [u32],
    cuts: &mut [u16],
    cites: &mut [u16],
    good: &mut [u8],
    counts: &mut [u32],
    table: &mut [u8],
    order: &mut [u16],
    out: &mut [u8],
) -> usize
    requires { Ample (kept sheet.old ranks.old cuts.old cites.old good.old) (buffers counts.old table.old order.old) }
    ensures { Wrote out.old 0 (reading_text run.now) out.new result
        × Spared
        (kept sheet.old ranks.old cuts.old cites.old good.old)
        (buffers counts.old table.old order.old)
        (kept sheet.new ranks.new cuts.new cites.new good.new)
        (buffers counts.new table.new order.new) }
{
    put_reading(
        run,
        &mut sheet[..110592],
        &mut ranks[..2048],
        &mut cuts[..32768],
        &mut cites[..65536],
        &mut good[..65536],
        &mut counts[..2048],
        &mut table[..1024],
        &mut order[..2048],
        out,
    )
}
