//! Why an operation is refused: each row of document 01's table "What comes back" from 1 on, once, with what it says beside the number.
//! Every operation of this repository that can be refused answers `Result<_, Refusal>`; only the interface to C tells it in numbers.
#![tactic(auto)]

mod sentence;

ghost use Rattle.std.specs.Prelude.{◌≡◌};
ghost use Rattle.refusal.specs.Number.{number_in, number_of, values_of};
ghost use Rattle.refusal.specs.declared.Refusal.{Refusal};

/// What a join counts: how many records it read, and how many different indexes it accepted.
#[derive(Clone, Copy, Debug, PartialEq, Eq, Hash)]
pub struct Counts {
    pub read: u64,
    pub indexes: u64,
}

/// In the order of document 01's numbers.
#[derive(Clone, Copy, Debug, PartialEq, Eq, Hash)]
pub enum Refusal {
    CountsOutOfBounds,
    TooLong,
    SeedTooLarge,
    WrongLength,
    CheckMark,
    CheckShape,
    OtherBlock,
    FragmentShape,
    OtherNumber(u64),
    NoSuchHead,
    Hash,
    Fingerprint,
    TooFew(Counts),
    Fill(Counts),
}

impl Refusal {
    /// Document 01's number, 1 to 14.
    pub fn number(self) -> u32
        ensures { result ≡ number_of self }
    {
        match self {
            Refusal::CountsOutOfBounds => 1,
            Refusal::TooLong => 2,
            Refusal::SeedTooLarge => 3,
            Refusal::WrongLength => 4,
            Refusal::CheckMark => 5,
            Refusal::CheckShape => 6,
            Refusal::OtherBlock => 7,
            Refusal::FragmentShape => 8,
            Refusal::OtherNumber(_) => 9,
            Refusal::NoSuchHead => 10,
            Refusal::Hash => 11,
            Refusal::Fingerprint => 12,
            Refusal::TooFew(_) => 13,
            Refusal::Fill(_) => 14,
        }
    }

    /// What document 01 gives beside the number: the block number found, or the two counts of a join; 0 where it gives nothing.
    pub fn values(self) -> (u64, u64)
        ensures { result ≡ values_of self }
    {
        match self {
            Refusal::OtherNumber(found) => (found, 0),
            Refusal::TooFew(counts) | Refusal::Fill(counts) => (counts.read, counts.indexes),
            _ => (0, 0),
        }
    }
}

/// The number of an answer without a value: 0 where it is done.
pub fn number_in(answer: Result<(), Refusal>) -> u32
    ensures { result ≡ number_in answer }
{
    match answer {
        Ok(()) => 0,
        Err(refusal) => refusal.number(),
    }
}

/// A refusal is fixed by its number and what stands beside it, so a promise in numbers fixes the answer.
pub fn one_refusal()
    ensures { (r s : Refusal) → number_of r ≡ number_of s → values_of r ≡ values_of s → r ≡ s }
{}
