// The citations of an offered block: refusals 13, 14 and 15.
ghost use Rattle.std.specs.Prelude.{◌+◌, ◌≤◌, ◌<◌, min, eqb, get_or, length, ◌≡◌};
ghost use Rattle.admission.specs.Citing.{cites_in, values_of};
ghost use Rattle.admission.specs.Replies.{Within, cites_only, reply_to};
ghost use Rattle.sheets.specs.Sheet.{sheet_in};
ghost use Rattle.plain.specs.Answer.{first_to, is_accepted};
ghost use Rattle.plain.specs.Plain.{cite_answer};
ghost use Rattle.sums.specs.Test.{any_to};
ghost use Rattle.settlement.specs.Cells.{cell_in};
ghost use Rattle.settlement.specs.View.{no_cite};

use crate::citations::{Citations, cite, size};
use frames::block::Block;
use ordering::count_at;
use refusals::Refusal;
use sheets::parts::has_part;
use sheets::sheet::Sizes;

// How many of n places from a place on a list of this length has.
fn within(length: usize, from: usize, n: usize) -> usize
    ensures { Within length from n result }
{
    if length <= from {
        return 0;
    }
    if length - from < n { length - from } else { n }
}

// x is cited at one of the first n places of instance i: the places that there are, one by one; any other holds 65535.
fn cited_by(cites: &[u16], i: u16, n: usize, x: u16) -> bool
    ensures { result ≡ any_to n (λ p. eqb (cell_in cites.now i p) x) }
{
    let from = (i as usize) * 4096;
    let k = within(cites.len(), from, n);
    for p in 0..k {
        if cites[from + p] == x {
            return true;
        }
    }
    if k < n { x == 65535 } else { false }
}

// x is one of the first q citations of the list.
fn cited_above(list: Citations, q: u16, x: u16) -> bool
    ensures { result ≡ any_to q (λ p. eqb (get_or (cites_in list) p no_cite) x) }
{
    for p in 0..q {
        if cite(list, p) == x {
            return true;
        }
    }
    false
}

// Refusals 13, 14 and 15 at list place q.
fn check_cite(
    sheet: &[u8],
    z: Sizes,
    heights: [u16; 16],
    cites: &[u16],
    block: Block,
    list: Citations,
    q: u16,
) -> Result<(), Refusal>
    ensures { reply_to result ≡ cite_answer (sheet_in sheet.now z) (cites_only heights cites.now) (values_of block list) q }
{
    let i = block.instance;
    let x = cite(list, q);
    if z.t <= x {
        return Err(Refusal::NoTransaction(q as usize));
    }
    if !has_part(sheet, z, x, i) {
        return Err(Refusal::NoPart(q as usize));
    }
    let h = count_at(heights, i);
    if cited_by(cites, i, (h as usize) * 32, x) {
        return Err(Refusal::CitedBefore(q as usize));
    }
    if cited_above(list, q, x) {
        return Err(Refusal::CitedBefore(q as usize));
    }
    Ok(())
}

// Refusals 13, 14 and 15 at each citation in turn.
pub fn check_cites(
    sheet: &[u8],
    z: Sizes,
    heights: [u16; 16],
    cites: &[u16],
    block: Block,
    list: Citations,
) -> Result<(), Refusal>
    ensures { reply_to result
        ≡ first_to (length (cites_in list)) (cite_answer (sheet_in sheet.now z) (cites_only heights cites.now) (values_of block list)) }
{
    let n = size(list);
    for q in 0..n {
        check_cite(sheet, z, heights, cites, block, list, q)?;
    }
    Ok(())
}
