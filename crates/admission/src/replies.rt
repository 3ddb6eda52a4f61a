// Whether a check turned the block away.
ghost use Rattle.std.specs.Prelude.{◌≡◌};
ghost use Rattle.admission.specs.Replies.{reply_to};
ghost use Rattle.plain.specs.Answer.{is_accepted};

use refusals::Refusal;

pub fn is_fine(c: Result<(), Refusal>) -> bool
    ensures { result ≡ is_accepted (reply_to c) }
{
    match c {
        Ok(()) => true,
        Err(_) => false,
    }
}
