//! A refusal in words, for logs and messages.
ghost use Rattle.refusal.specs.Sentence.{sentence_of};
ghost use Rattle.std.specs.Prelude.{Some};

use crate::Refusal;
use std::error::Error;
use std::fmt;

impl fmt::Display for Refusal {
    ghost output = { λ refusal. Some (sentence_of refusal) };

    fn fmt<W: fmt::Write>(&self, f: &mut fmt::Formatter<W>) -> fmt::Result {
        match self {
            Refusal::CountsOutOfBounds => f.write_str("m or n out of bounds"),
            Refusal::TooLong => f.write_str("block or body too long"),
            Refusal::SeedTooLarge => f.write_str("seed too large"),
            Refusal::WrongLength => f.write_str("a lent buffer has another length than stated"),
            Refusal::CheckMark => f.write_str("no check record of a known version"),
            Refusal::CheckShape => f.write_str("check record out of bounds or of another length"),
            Refusal::OtherBlock => f.write_str("check record of another block than wanted"),
            Refusal::FragmentShape => f.write_str("no fragment record of the check record's shape"),
            Refusal::OtherNumber(found) => write!(f, "fragment of block {found}"),
            Refusal::NoSuchHead => f.write_str("fragment index not below n"),
            Refusal::Hash => f.write_str("hash differs"),
            Refusal::Fingerprint => f.write_str("body does not match the fingerprints"),
            Refusal::TooFew(counts) => write!(
                f,
                "too few fragments: {} in {} records",
                counts.indexes, counts.read
            ),
            Refusal::Fill(counts) => write!(
                f,
                "fill not zero: {} fragments in {} records",
                counts.indexes, counts.read
            ),
        }
    }
}

impl Error for Refusal {}
