// What is wrong with the words.
ghost use Rattle.std.specs.Prelude.{◌≡◌};
ghost use Rattle.tet_words.specs.Faults.{fault_text};
ghost use Rattle.tet_words.specs.declared.fault.WordsIssue.TheVariants.{Memory, Refused};

use std::alloc::{AllocError, AllocFailed};
use thiserror::Error;

/// What is wrong with the words of a command line. Where several things are, the first of this list
/// is the one given.
#[derive(Clone, Copy, Debug, PartialEq, Eq)]
pub enum WordFault {
    NoCommand,
    Command,
    /// An option that the command has not, or a second time, or without its value; or another number
    /// of positional words than the command's.
    Words,
    Epsilon,
    Cells,
    Budget,
    Digits,
    K,
    Seed,
    /// A name is empty or `-`.
    Name,
    SameName,
}

impl WordFault {
    /// What is wrong, as it is printed.
    pub fn text(self) -> &'static str
        ensures { result.now ≡ fault_text self }
    {
        match self {
            WordFault::NoCommand => "no command",
            WordFault::Command => "unknown command",
            WordFault::Words => "bad words",
            WordFault::Epsilon => "epsilon must be 1 to 4095",
            WordFault::Cells => "cells must be 1, 2, 4, 8, 16 or 32",
            WordFault::Budget => "budget must be 0 to 1000000",
            WordFault::Digits => "digits must be 0 to 5",
            WordFault::K => "K must be 1 to 64",
            WordFault::Seed => "SEED must be 0 to 4294967295",
            WordFault::Name => "bad name",
            WordFault::SameName => "two names are equal",
        }
    }
}

/// Why the words are no job.
#[derive(Clone, Copy, Debug, PartialEq, Eq, Error)]
pub enum WordsIssue {
    #[error("{}", .0.text())]
    Refused(WordFault),
    #[error("out of memory")]
    Memory,
}

impl From<WordFault> for WordsIssue {
    ghost from_gives = { λ fault issue. issue ≡ Refused fault };

    fn from(fault: WordFault) -> WordsIssue {
        WordsIssue::Refused(fault)
    }
}

impl From<AllocError> for WordsIssue {
    ghost from_gives = { λ _ issue. issue ≡ Memory };

    fn from(_: AllocError) -> WordsIssue {
        WordsIssue::Memory
    }
}

impl<T: Drop> From<AllocFailed<T>> for WordsIssue {
    ghost from_gives = { λ _ issue. issue ≡ Memory };

    fn from(_: AllocFailed<T>) -> WordsIssue {
        WordsIssue::Memory
    }
}
