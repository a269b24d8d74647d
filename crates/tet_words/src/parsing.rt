// From words to a job.
ghost use Rattle.std.specs.Prelude.{◌≡◌, ◌∷◌, [], map, IfOk};
ghost use Rattle.std.specs.Option.{option_map};
ghost use Rattle.tet_words.specs.Answers.{Answers};
ghost use Rattle.tet_words.specs.Facts.{AreNames, IsJob};
ghost use Rattle.tet_words.specs.Names.{check_names};
ghost use Rattle.tet_words.specs.Views.{sorted_view, values_view};
ghost use Rattle.tet_words.specs.Words.{check_job, demo_job, job_of, kept_names, meaning, mesh_job};

use crate::commands::{Command, command_of};
use crate::fault::{WordFault, WordsIssue};
use crate::job::{CheckJob, DemoJob, Job, MeshJob};
use crate::names::check_names;
use crate::numbers::{given_cells, given_digits, given_number, number_in};
use crate::sorting::{Sorted, Values, sort};
use grid::MOST_EPSILON;
use items::Text;
use std::alloc::{AllocError, Global};

fn text(alloc: Global, word: &str) -> Result<Text, AllocError>
    ensures { IfOk result (λ t. t ≡ word.now) }
{
    let string = String::from_str(alloc, word)?;
    Ok(Text::from_string(string))
}

fn kept_text(alloc: Global, kept: Option<&str>) -> Result<Option<Text>, AllocError>
    ensures { IfOk result (λ t. t ≡ option_map (λ k. k.now) kept.entry) }
{
    match kept {
        Some(word) => Ok(Some(text(alloc, word)?)),
        None => Ok(None),
    }
}

fn check_mesh_names(
    input: &str,
    mesh: &str,
    report: &str,
    kept: Option<&str>,
) -> Result<(), WordFault>
    ensures value { result ≡ check_names (input.now ∷ mesh.now ∷ report.now ∷ kept_names (option_map (λ k. k.now) kept.entry)) }
    ensures names { IfOk result (λ u. AreNames (input.now ∷ mesh.now ∷ report.now ∷ kept_names (option_map (λ k. k.now) kept.entry))) }
{
    match kept {
        Some(kept) => check_names(&[input, mesh, report, kept]),
        None => check_names(&[input, mesh, report]),
    }
}

fn mesh_of(
    alloc: Global,
    input: &str,
    mesh: &str,
    report: &str,
    values: &Values,
) -> Result<Job, WordsIssue>
    ensures answers { Answers (λ j. j) (mesh_job (input.now ∷ mesh.now ∷ report.now ∷ []) (values_view values.now)) result }
    ensures facts { IfOk result IsJob }
{
    let epsilon = given_number(values.epsilon, 2, 1, MOST_EPSILON, WordFault::Epsilon)?;
    let cells = given_cells(values.cells)?;
    let budget = given_number(values.budget, 100_000, 0, 1_000_000, WordFault::Budget)?;
    let digits = given_digits(values.digits)?;
    check_mesh_names(input, mesh, report, values.kept)?;
    Ok(Job::Mesh(MeshJob {
        input: text(alloc, input)?,
        mesh: text(alloc, mesh)?,
        report: text(alloc, report)?,
        epsilon,
        cells,
        budget,
        digits,
        kept: kept_text(alloc, values.kept)?,
    }))
}

fn mesh_job(alloc: Global, words: &[&str], values: &Values) -> Result<Job, WordsIssue>
    ensures answers { Answers (λ j. j) (mesh_job (map (λ w. w.now) words.now) (values_view values.now)) result }
    ensures facts { IfOk result IsJob }
{
    match words {
        [input, mesh, report] => mesh_of(alloc, input, mesh, report, values),
        _ => Err(WordsIssue::Refused(WordFault::Words)),
    }
}

fn check_of(
    alloc: Global,
    input: &str,
    mesh: &str,
    report: &str,
    values: &Values,
) -> Result<Job, WordsIssue>
    ensures answers { Answers (λ j. j) (check_job (input.now ∷ mesh.now ∷ report.now ∷ []) (values_view values.now)) result }
    ensures facts { IfOk result IsJob }
{
    let digits = given_digits(values.digits)?;
    check_names(&[input, mesh, report])?;
    Ok(Job::Check(CheckJob {
        input: text(alloc, input)?,
        mesh: text(alloc, mesh)?,
        report: text(alloc, report)?,
        digits,
    }))
}

fn check_job(alloc: Global, words: &[&str], values: &Values) -> Result<Job, WordsIssue>
    ensures answers { Answers (λ j. j) (check_job (map (λ w. w.now) words.now) (values_view values.now)) result }
    ensures facts { IfOk result IsJob }
{
    match words {
        [input, mesh, report] => check_of(alloc, input, mesh, report, values),
        _ => Err(WordsIssue::Refused(WordFault::Words)),
    }
}

fn demo_of(
    alloc: Global,
    k: &str,
    seed: &str,
    off: &str,
    mesh: &str,
    report: &str,
) -> Result<Job, WordsIssue>
    ensures answers { Answers (λ j. j) (demo_job (k.now ∷ seed.now ∷ off.now ∷ mesh.now ∷ report.now ∷ [])) result }
    ensures facts { IfOk result IsJob }
{
    let k = number_in(k, 1, 64, WordFault::K)?;
    let seed = number_in(seed, 0, u32::MAX, WordFault::Seed)?;
    check_names(&[off, mesh, report])?;
    Ok(Job::Demo(DemoJob {
        k,
        seed,
        off: text(alloc, off)?,
        mesh: text(alloc, mesh)?,
        report: text(alloc, report)?,
    }))
}

fn demo_job(alloc: Global, words: &[&str]) -> Result<Job, WordsIssue>
    ensures answers { Answers (λ j. j) (demo_job (map (λ w. w.now) words.now)) result }
    ensures facts { IfOk result IsJob }
{
    match words {
        [k, seed, off, mesh, report] => demo_of(alloc, k, seed, off, mesh, report),
        _ => Err(WordsIssue::Refused(WordFault::Words)),
    }
}

fn job_of(alloc: Global, command: Command, sorted: &Sorted) -> Result<Job, WordsIssue>
    ensures answers { Answers (λ j. j) (job_of command (sorted_view sorted.now)) result }
    ensures facts { IfOk result IsJob }
{
    match command {
        Command::Mesh => mesh_job(alloc, &sorted.words, &sorted.values),
        Command::Check => check_job(alloc, &sorted.words, &sorted.values),
        Command::Demo => demo_job(alloc, &sorted.words),
    }
}

/// The job of the words of a command line, of which the first is the command. A refusal carries the
/// first fault of the words.
pub fn parse(alloc: Global, words: &[&str]) -> Result<Job, WordsIssue>
    // The answer is what the words mean.
    ensures answers { Answers (λ j. j) (meaning (map (λ w. w.now) words.now)) result }
    // The numbers of a job are in their ranges, and its names are names of different files.
    ensures facts { IfOk result IsJob }
{
    let [word, behind @ ..] = words else {
        return Err(WordsIssue::Refused(WordFault::NoCommand));
    };
    let Some(command) = command_of(word) else {
        return Err(WordsIssue::Refused(WordFault::Command));
    };
    let sorted = sort(alloc, command, behind)?;
    job_of(alloc, command, &sorted)
}
