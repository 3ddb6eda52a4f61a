// The refusals of document 01 ("What the caller gets when a slip or block is turned away"), in the order of their numbers,
// each with what its place is.

#![tactic(auto)]

ghost use Rattle.std.specs.Prelude.{◌≡◌};
ghost use Rattle.refusals.specs.Refusals.{refusal_number, refusal_place};

#[derive(Clone, Copy, Debug, PartialEq, Eq)]
pub enum Refusal {
    // 1 to 7: the frame's offset
    Short(usize),
    BadLength(usize),
    KindNotDue(usize),
    BodyLength(usize),
    OutOfRange(usize),
    AccountTwice(usize),
    SumsDiffer(usize),
    // 8
    NoInstance,
    // 9: the sequence number due
    NotNumberDue(u16),
    // 10: the instance's last rank
    RankNotAbove(u32),
    // 11 and 12: the cut's entry
    EntryBack(usize),
    EntryAhead(usize),
    // 13 to 15: the place in the list of citations
    NoTransaction(usize),
    NoPart(usize),
    CitedBefore(usize),
    // 16: the least length
    BufferShort(usize),
    // 17
    LogFull,
}

// The number that document 01 gives the refusal.
pub fn number(r: Refusal) -> u8
    ensures { result ≡ refusal_number r }
{
    match r {
        Refusal::Short(_) => 1,
        Refusal::BadLength(_) => 2,
        Refusal::KindNotDue(_) => 3,
        Refusal::BodyLength(_) => 4,
        Refusal::OutOfRange(_) => 5,
        Refusal::AccountTwice(_) => 6,
        Refusal::SumsDiffer(_) => 7,
        Refusal::NoInstance => 8,
        Refusal::NotNumberDue(_) => 9,
        Refusal::RankNotAbove(_) => 10,
        Refusal::EntryBack(_) => 11,
        Refusal::EntryAhead(_) => 12,
        Refusal::NoTransaction(_) => 13,
        Refusal::NoPart(_) => 14,
        Refusal::CitedBefore(_) => 15,
        Refusal::BufferShort(_) => 16,
        Refusal::LogFull => 17,
    }
}

// The place that document 01 gives with it.
pub fn place(r: Refusal) -> usize
    ensures { result ≡ refusal_place r }
{
    match r {
        Refusal::Short(at)
        | Refusal::BadLength(at)
        | Refusal::KindNotDue(at)
        | Refusal::BodyLength(at)
        | Refusal::OutOfRange(at)
        | Refusal::AccountTwice(at)
        | Refusal::SumsDiffer(at) => at,
        Refusal::NotNumberDue(due) => due as usize,
        Refusal::RankNotAbove(last) => last as usize,
        Refusal::EntryBack(entry) | Refusal::EntryAhead(entry) => entry,
        Refusal::NoTransaction(k) | Refusal::NoPart(k) | Refusal::CitedBefore(k) => k,
        Refusal::BufferShort(least) => least,
        Refusal::NoInstance | Refusal::LogFull => 0,
    }
}
