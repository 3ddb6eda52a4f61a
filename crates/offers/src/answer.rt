// The answers to offers.
ghost use Rattle.std.specs.Prelude.{◌≡◌};
ghost use Rattle.admission.specs.Replies.{reply_to};
ghost use Rattle.offers.specs.Offering.{reply_of};
ghost use Rattle.plain.specs.Answer.{is_accepted};

use refusals::Refusal;
use state::ledger::Ledger;

// NoByte: a call for a frame where no byte is left, which is no offer.
#[derive(Clone, Copy, Debug, PartialEq, Eq)]
pub enum Answer {
    Accepted,
    Refused(Refusal),
    NoByte,
}

// What a check found, as an answer.
impl From<Result<(), Refusal>> for Answer {
    ghost from_gives = { λ found answer. reply_of answer ≡ reply_to found };

    fn from(found: Result<(), Refusal>) -> Answer {
        match found {
            Ok(()) => Answer::Accepted,
            Err(r) => Answer::Refused(r),
        }
    }
}

impl Answer {
    pub fn is_accepted(self) -> bool
        ensures { result ≡ is_accepted (reply_of self) }
    {
        match self {
            Answer::Accepted => true,
            Answer::Refused(_) => false,
            Answer::NoByte => false,
        }
    }
}

// The answer, and the ledger afterwards.
#[derive(Clone, Copy)]
pub struct Offered {
    pub answer: Answer,
    pub ledger: Ledger,
}
