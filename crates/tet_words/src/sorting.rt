//! The further words of a command, read from left to right.

ghost use Rattle.std.specs.Prelude.{◌≡◌, map, Ok};
ghost use Rattle.std.specs.Option.{option_map};
ghost use Rattle.tet_words.specs.Sorting.{option_with_value, is_dashed, is_given, is_refused, nothing, read_any, read_value, set_value, sorted, step, take_value, take_word};
ghost use Rattle.tet_words.specs.Views.{sorted_view, values_view};
ghost use Rattle.tet_words.specs.Answers.{Answers};

use crate::commands::{Command, Key, option_of};
use crate::fault::{WordFault, WordsIssue};
use std::alloc::Global;

/// What the next word is read as.
#[derive(Clone, Copy, Debug, PartialEq, Eq)]
pub enum Next {
    /// An option or a positional word.
    Any,
    /// The value of an option.
    Value(Key),
    /// A positional word, behind `--`.
    Positional,
}

/// The values of the options that are given.
#[derive(Clone, Copy, Drop)]
pub struct Values<'a> {
    pub epsilon: Option<&'a str>,
    pub cells: Option<&'a str>,
    pub budget: Option<&'a str>,
    pub digits: Option<&'a str>,
    pub kept: Option<&'a str>,
}

/// The words that were read.
#[derive(Drop)]
pub struct Sorted<'a> {
    /// The positional words.
    pub words: Vec<&'a str>,
    pub values: Values<'a>,
    pub next: Next,
}

// The option with its value in one word.
fn option_with_value(command: Command, word: &str) -> Option<(Key, &str)>
    ensures { option_map (λ r. (r.0, r.1.now)) result ≡ option_with_value command word.now }
{
    let Some((name, text)) = word.split_once('=') else {
        return None;
    };
    match option_of(command, name) {
        Some(key) => Some((key, text)),
        None => None,
    }
}

fn is_dashed(word: &str) -> bool
    ensures { result ≡ is_dashed word.now }
{
    match word.as_bytes() {
        [] => false,
        [first, ..] => *first == b'-',
    }
}

// Whether the word is neither an option nor positional.
fn is_refused(word: &str) -> bool
    ensures { result ≡ is_refused word.now }
{
    is_dashed(word) && word.len() > 1
}

impl<'a> Values<'a> {
    fn is_given(&self, key: Key) -> bool
        ensures { result ≡ is_given (values_view self.now) key }
    {
        match key {
            Key::Epsilon => self.epsilon.is_some(),
            Key::Cells => self.cells.is_some(),
            Key::Budget => self.budget.is_some(),
            Key::Digits => self.digits.is_some(),
            Key::Kept => self.kept.is_some(),
        }
    }

    fn set(&mut self, key: Key, text: &'a str)
        ensures { values_view self.new ≡ set_value key text.now (values_view self.old) }
    {
        match key {
            Key::Epsilon => self.epsilon = Some(text),
            Key::Cells => self.cells = Some(text),
            Key::Budget => self.budget = Some(text),
            Key::Digits => self.digits = Some(text),
            Key::Kept => self.kept = Some(text),
        }
    }
}

impl<'a> Sorted<'a> {
    fn take_value(&mut self, key: Key, text: &'a str) -> Result<(), WordsIssue>
        ensures { Answers (λ u. sorted_view self.new) (take_value key text.now (sorted_view self.old)) result }
    {
        if self.values.is_given(key) {
            return Err(WordsIssue::Refused(WordFault::Words));
        }
        self.values.set(key, text);
        self.next = Next::Any;
        Ok(())
    }

    // A word that may be an option.
    fn read_any(&mut self, command: Command, word: &'a str) -> Result<(), WordsIssue>
        ensures { Answers (λ u. sorted_view self.new) (read_any command word.now (sorted_view self.old)) result }
    {
        if word == "--" {
            self.next = Next::Positional;
            return Ok(());
        }
        if let Some(key) = option_of(command, word) {
            self.next = Next::Value(key);
            return Ok(());
        }
        if let Some((key, text)) = option_with_value(command, word) {
            return self.take_value(key, text);
        }
        if is_refused(word) {
            return Err(WordsIssue::Refused(WordFault::Words));
        }
        self.words.push(word)?;
        Ok(())
    }

    fn read_value(&mut self, key: Key, word: &'a str) -> Result<(), WordsIssue>
        ensures { Answers (λ u. sorted_view self.new) (read_value key word.now (sorted_view self.old)) result }
    {
        if is_dashed(word) {
            return Err(WordsIssue::Refused(WordFault::Words));
        }
        self.take_value(key, word)
    }

    fn read_positional(&mut self, word: &'a str) -> Result<(), WordsIssue>
        ensures { Answers (λ u. sorted_view self.new) (Ok (take_word word.now (sorted_view self.old))) result }
    {
        self.words.push(word)?;
        Ok(())
    }

    fn read(&mut self, command: Command, word: &'a str) -> Result<(), WordsIssue>
        ensures { Answers (λ u. sorted_view self.new) (step command word.now (sorted_view self.old)) result }
    {
        match self.next {
            Next::Any => self.read_any(command, word),
            Next::Value(key) => self.read_value(key, word),
            Next::Positional => self.read_positional(word),
        }
    }
}

/// Sorts the words behind a command.
pub fn sort<'a>(
    alloc: Global,
    command: Command,
    words: &[&'a str],
) -> Result<Sorted<'a>, WordsIssue>
    ensures { Answers sorted_view (sorted command nothing (map (λ w. w.now) words.now)) result }
{
    let mut sorted = Sorted {
        words: Vec::new(alloc),
        values: Values {
            epsilon: None,
            cells: None,
            budget: None,
            digits: None,
            kept: None,
        },
        next: Next::Any,
    };
    for word in words {
        sorted.read(command, word)?;
    }
    match sorted.next {
        Next::Value(_) => Err(WordsIssue::Refused(WordFault::Words)),
        _ => Ok(sorted),
    }
}
