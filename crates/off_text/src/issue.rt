// What is wrong with an OFF text.
ghost use Rattle.std.specs.Prelude.{◌≡◌};

use std::alloc::{AllocError, AllocFailed};
use thiserror::Error;

/// What is wrong with an OFF text.
#[derive(Clone, Copy, Debug, PartialEq, Eq)]
pub enum OffKind {
    /// There is no word, or the first word does not end with `OFF`.
    NoKeyword = 1,
    /// The first word names another variant of the format, or `BINARY` follows it.
    OtherKeyword = 2,
    /// A count, or a face's number of corners, is not one or more digits.
    BadCount = 3,
    /// A further word is needed, and there is none.
    Ended = 4,
    /// A coordinate or the number of a vertex is not spelled as one, or a coordinate in units has more
    /// than 32 bytes.
    BadNumber = 5,
    /// A coordinate that is to be whole has an exponent, or a fraction other than zero.
    NotWhole = 6,
    /// A coordinate is above 10^9 in absolute value.
    TooLarge = 7,
    /// There is no vertex of that number.
    BadIndex = 8,
    /// A face has fewer than three corners.
    ShortFace = 9,
    /// There are more than 2^20 vertices, faces or triangles.
    TooMany = 10,
}

/// Why an OFF text is not read.
#[derive(Clone, Copy, Debug, PartialEq, Eq, Error)]
pub enum OffIssue {
    /// The first refusal, with the number of bytes before the word that is refused, or of all bytes
    /// where a word is missing.
    #[error("byte {place}: {kind:?}")]
    At { kind: OffKind, place: u64 },
    #[error("out of memory")]
    Memory,
}

impl From<AllocError> for OffIssue {
    ghost use Rattle.off_text.specs.declared.issue.OffIssue.TheVariants.{Memory};

    ghost from_gives = { λ _ e. e ≡ Memory };

    fn from(_: AllocError) -> OffIssue {
        OffIssue::Memory
    }
}

impl<T: Drop> From<AllocFailed<T>> for OffIssue {
    ghost use Rattle.off_text.specs.declared.issue.OffIssue.TheVariants.{Memory};

    ghost from_gives = { λ _ e. e ≡ Memory };

    fn from(_: AllocFailed<T>) -> OffIssue {
        OffIssue::Memory
    }
}
