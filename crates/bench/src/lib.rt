// For timing from outside: the global log of a table of ranks, and one settlement of a view, on plain numbers and lent slices.

#![tactic(auto)]

ghost use Rattle.std.specs.Prelude.{get_or, length, replicate, take, map, ◌≡◌, ◌/◌};
ghost use Rattle.bench.specs.Bench.{Timed, ready, rises, rises_at, sizes};
ghost use Rattle.ordering.specs.Order.{global_log};
ghost use Rattle.ordering.specs.Table.{block_id, count_in, rank_in, usable};
ghost use Rattle.settlement.specs.Cells.{rows_in};
ghost use Rattle.settlement.specs.Tables.{buffers};
ghost use Rattle.sheets.specs.Sheet.{sheet_in};
ghost use Rattle.sums.specs.Seq.{fill};
ghost use Rattle.sums.specs.Test.{all_to};

use ordering::rank_at;
use settlement::settle::settle;
use sheets::sheet::Sizes;

// Block n + 1 of instance j, where it is one of the first b, has a rank above block n's.
fn rises_at(ranks: &[u32], b: u16, j: u16, n: u16) -> bool
    ensures { result ≡ rises_at ranks.now b j n }
{
    if b <= n {
        return true;
    }
    if b - n == 1 {
        return true;
    }
    let low = rank_at(ranks, j, n);
    let high = rank_at(ranks, j, n + 1);
    low.0 < high.0
}

// The ranks of instance j's first b blocks rise.
fn row_rises(ranks: &[u32], b: u16, j: u16) -> bool
    ensures { result ≡ rises ranks.now b j }
{
    (0..b).all(|n| rises_at(ranks, b, j, n))
}

// So do those of m instances.
fn all_rise(ranks: &[u32], b: u16, m: u16) -> bool
    ensures { result ≡ all_to m (rises ranks.now b) }
{
    (0..m).all(|j| row_rises(ranks, b, j))
}

// Whether a settlement of b whole blocks an instance may be asked for, with buffers of these lengths.
fn is_ready(z: Sizes, ranks: &[u32], b: u16, counts: usize, table: usize, order: usize) -> bool
    ensures { result ≡ ready z ranks.now b counts table order }
{
    let t = z.t as usize;
    let m = z.m as usize;
    if 16 < z.m {
        return false;
    }
    if 64 < z.g {
        return false;
    }
    if counts < 2 * t {
        return false;
    }
    if table < t {
        return false;
    }
    if order < 128 * m {
        return false;
    }
    if 128 < b {
        return false;
    }
    all_rise(ranks, b, z.m)
}

fn cell(cells: [u32; 64], i: u16) -> u32
    ensures { result ≡ get_or cells i 0 }
{
    cells.get(i as usize).copied().unwrap_or(0)
}

// Register i of g; 0 where there is none.
fn register(cells: [u32; 64], g: u16, i: u16) -> u32
    ensures { result ≡ get_or (take g cells) i 0 }
{
    if i < g { cell(cells, i) } else { 0 }
}

// The log of a table of ranks with the same number of blocks in each instance, written over the front of `order`. Returns how many blocks it has.
#[unsafe(no_mangle)]
pub extern "C" fn bench_log(ranks: &[u32], m: u16, blocks: u16, order: &mut [u16]) -> usize
    ensures { (result ≡ length (global_log m (rank_in ranks.now) (usable (rank_in ranks.now) (count_in (replicate 16 blocks)))))
        × (order.new
        ≡ fill
        (map block_id (global_log m (rank_in ranks.now) (usable (rank_in ranks.now) (count_in (replicate 16 blocks)))))
        order.old) }
{
    let full = [blocks; 16];
    ordering::view_log(m, ranks, full, order)
}

// Settles the view of the first `places` places of each instance, and returns 2^32 + its register `which`, which is 0 from g on; 0, and nothing done, where it may not be asked for.
#[unsafe(no_mangle)]
pub extern "C" fn bench_settle(
    sheet: &[u8],
    ranks: &[u32],
    cites: &[u16],
    good: &[u8],
    m: u16,
    a: u16,
    g: u16,
    t: u16,
    places: u16,
    counts: &mut [u32],
    table: &mut [u8],
    order: &mut [u16],
    which: u16,
) -> u64
    ensures { Timed
        (ready (sizes m a g t) ranks.now (places / 32) (length counts.old) (length table.old) (length order.old))
        (sizes m a g t)
        (sheet_in sheet.now (sizes m a g t))
        (rows_in ranks.now cites.now good.now)
        (count_in (replicate 16 places))
        (buffers counts.old table.old order.old)
        (buffers counts.new table.new order.new)
        which result }
{
    let z = Sizes { m, a, g, t };
    if !is_ready(
        z,
        ranks,
        places / 32,
        counts.len(),
        table.len(),
        order.len(),
    ) {
        return 0;
    }
    let view = [places; 16];
    let cells = settle(sheet, ranks, cites, good, z, view, counts, table, order);
    4294967296 + (register(cells, g, which) as u64)
}
