// The entries of an offered block's cut: unused ones, and refusals 11 and 12.
ghost use Rattle.std.specs.Prelude.{◌-◌, eqb, leb, ltb, get_or, not, [], ◌≡◌};
ghost use Rattle.admission.specs.Citing.{values_with};
ghost use Rattle.admission.specs.Replies.{cuts_only, reply_to};
ghost use Rattle.ordering.specs.Table.{count_in};
ghost use Rattle.plain.specs.Answer.{first_to, refuse};
ghost use Rattle.plain.specs.Plain.{entry_off, last_entry, unused_set};
ghost use Rattle.sums.specs.Test.{both};

use frames::block::Block;
use ordering::count_at;
use refusals::Refusal;

fn is_set(m: u16, cut: [u16; 16], e: u16) -> bool
    ensures { result ≡ both (leb m e) (not (eqb (get_or cut e 0) 0)) }
{
    m <= e && count_at(cut, e) != 0
}

// An entry that no instance has is not 0.
pub fn unused_set(m: u16, cut: [u16; 16]) -> bool
    ensures { result ≡ unused_set m cut }
{
    for e in 0..16u16 {
        if is_set(m, cut, e) {
            return true;
        }
    }
    false
}

// Entry e of the cut of instance i's last block, 0 if there is none.
fn last_entry(heights: [u16; 16], cuts: &[u16], i: u16, e: u16) -> u16
    ensures { result ≡ last_entry (cuts_only heights cuts.now) i e }
{
    let h = count_at(heights, i);
    if h == 0 {
        return 0;
    }
    let at = ((i as usize) * 128 + (h as usize) - 1) * 16 + (e as usize);
    cuts.get(at).copied().unwrap_or(0)
}

// Entry e is the own one, and v is not the number of blocks before this one.
fn is_own_off(block: Block, e: u16, v: u16) -> bool
    ensures { result ≡ both (eqb e block.instance) (not (eqb v (block.sequence.0 - 1))) }
{
    e == block.instance && v != block.sequence.0.saturating_sub(1)
}

// Refusal 11 at entry e.
fn is_off(heights: [u16; 16], cuts: &[u16], block: Block, e: u16) -> bool
    ensures { result ≡ entry_off (cuts_only heights cuts.now) (values_with block []) e }
{
    let cut = block.cut;
    let v = count_at(cut, e);
    is_own_off(block, e, v) || v < last_entry(heights, cuts, block.instance, e)
}

// Refusal 11, over all entries.
pub fn check_order(m: u16, heights: [u16; 16], cuts: &[u16], block: Block) -> Result<(), Refusal>
    ensures { reply_to result ≡ first_to m (λ e. refuse (entry_off (cuts_only heights cuts.now) (values_with block []) e) 11 e) }
{
    for e in 0..m {
        if is_off(heights, cuts, block, e) {
            return Err(Refusal::EntryBack(e as usize));
        }
    }
    Ok(())
}

// Refusal 12, over all entries.
pub fn check_cover(m: u16, heights: [u16; 16], cut: [u16; 16]) -> Result<(), Refusal>
    ensures { reply_to result ≡ first_to m (λ e. refuse (ltb (count_in heights e) (get_or cut e 0)) 12 e) }
{
    for e in 0..m {
        if count_at(heights, e) < count_at(cut, e) {
            return Err(Refusal::EntryAhead(e as usize));
        }
    }
    Ok(())
}
