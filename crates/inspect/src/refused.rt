//! A reason as the refusal of the same number, for callers that answer for more than a check.
ghost use Rattle.std.specs.Prelude.{◌≡◌};
ghost use Rattle.refusal.specs.Number.{number_of, values_of};
ghost use Rattle.inspect.specs.Answer.{reason_answer};

use crate::Reason;
use refusal::Refusal;

impl From<Reason> for Refusal {
    ghost from_gives = { λ reason refusal. reason_answer reason ≡ record { number = number_of refusal; value = (values_of refusal).0 } };

    fn from(reason: Reason) -> Refusal {
        match reason {
            Reason::CheckMark => Refusal::CheckMark,
            Reason::CheckShape => Refusal::CheckShape,
            Reason::OtherBlock => Refusal::OtherBlock,
            Reason::FragmentShape => Refusal::FragmentShape,
            Reason::OtherNumber(found) => Refusal::OtherNumber(found),
            Reason::NoSuchHead => Refusal::NoSuchHead,
            Reason::Hash => Refusal::Hash,
            Reason::Fingerprint => Refusal::Fingerprint,
        }
    }
}
