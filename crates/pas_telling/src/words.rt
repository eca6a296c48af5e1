//! What the words of a call ask for.
ghost use Rattle.std.specs.Prelude.{ℕ, ◌≡◌, IfOk, IfErr, MatchOption};
ghost use Rattle.pas_telling.specs.{Words.{texts_of, word_of, IsAccepted, IsNumbers}, Calls.{IsCall, IsMisread}, declared.manner.Manner.Manner};

use crate::job::Job;
use crate::manner::Manner;
use clap::{Arg, ArgAction, ArgMatches, Command, Error};
use pas_trace::number;
use std::alloc::{AllocError, Global};

/// What a call is to do.
#[derive(Clone, Copy, Drop)]
pub enum Call {
    /// Replay the trace that the source gives.
    Replay(Manner),
    /// Check a transcript against the trace that stands before it in what the source gives.
    Check,
    /// Replay a generated trace.
    Gen(Job),
}

/// Why a call does nothing.
#[derive(Clone, Copy, Drop)]
pub enum Misread {
    /// The words are no accepted list.
    Usage,
    /// Memory was wanting.
    Memory,
}

/// The call that the words ask for. `clap` reads them first; its reading is held against the table of accepted lists, since
/// its contracts tell what it matched for words that are known beforehand.
///
/// Usage exactly where the words are no accepted list. Memory where `clap` doesn't read an accepted list as what it is,
/// which happens for want of memory alone.
pub fn call_of(alloc: Global, words: &[&str]) -> Result<Call, Misread>
    ensures call { IfOk result (IsCall (texts_of words.now)) }
    ensures misread { IfErr result (IsMisread (texts_of words.now)) }
{
    let Some(call) = accepted(words) else {
        return Err(Misread::Usage);
    };
    match is_read_as(alloc, words, &call) {
        Ok(true) => Ok(call),
        _ => Err(Misread::Memory),
    }
}

/// Whether `clap` reads the words as this call.
fn is_read_as(alloc: Global, words: &[&str], call: &Call) -> Result<bool, Error> {
    let mut owned = Vec::new(alloc);
    for word in words {
        owned.push(String::from_str(alloc, word)?)?;
    }
    let matches = parsed(alloc, owned.as_slice())?;
    Ok(is_reading(&matches, call))
}

/// The call of an accepted list of words, by the table. None exactly where the list isn't accepted.
fn accepted(words: &[&str]) -> Option<Call>
    ensures { MatchOption result (IsAccepted (texts_of words.now) → ⊥) (IsCall (texts_of words.now)) }
{
    match words {
        [word] if *word == "check" => Some(Call::Check),
        [word] => Some(Call::Replay(manner_of(word)?)),
        [word, seed, ops, threads, pages] if *word == "gen" => {
            Some(Call::Gen(job_of(seed, ops, threads, pages)?))
        }
        _ => None,
    }
}

/// The manner that a word asks for. None exactly where it is the word of none.
fn manner_of(word: &str) -> Option<Manner>
    ensures { MatchOption result ((manner : Manner) → word.now ≡ word_of manner → ⊥) (λ manner. word.now ≡ word_of manner) }
{
    match word {
        "order" => Some(Manner::InOrder),
        "run" => Some(Manner::OnThreads),
        _ => None,
    }
}

/// The job that four numbers ask for. None exactly where one is no number or out of its range.
fn job_of(seed: &str, ops: &str, threads: &str, pages: &str) -> Option<Job>
    ensures { MatchOption result ((s o t p : ℕ) → IsNumbers seed.now ops.now threads.now pages.now s o t p → ⊥)
        (λ job. IsNumbers seed.now ops.now threads.now pages.now job.seed job.ops job.threads job.pages) }
{
    let seed = number(seed.as_bytes())?;
    let ops = number(ops.as_bytes())?;
    let threads = number(threads.as_bytes())?;
    let pages = number(pages.as_bytes())?;
    let in_range = 1 <= ops
        && ops <= 200_000
        && 1 <= threads
        && threads <= 16
        && 2 <= pages
        && pages <= 4096;
    if !in_range {
        return None;
    }
    Some(Job {
        seed,
        ops: ops as u32,
        threads: threads as u8,
        pages: pages as u32,
    })
}

/// A command without help.
fn command<'a>(alloc: Global, name: &'a str) -> Command<'a> {
    Command::new(alloc, name).disable_help_flag(true)
}

/// The command with one more number that it needs.
fn with_number<'a>(
    alloc: Global,
    command: Command<'a>,
    name: &'a str,
) -> Result<Command<'a>, AllocError> {
    let number = Arg::new(alloc, name).required(true).action(ArgAction::Set);
    command.arg(number)
}

/// The command `gen` with its four numbers.
fn generating<'a>(alloc: Global) -> Result<Command<'a>, AllocError> {
    let mut generate = command(alloc, "gen");
    for name in ["SEED", "OPS", "THREADS", "PAGES"] {
        generate = with_number(alloc, generate, name)?;
    }
    Ok(generate)
}

/// The program's command, which wants one of others below it.
fn program<'a>(alloc: Global) -> Command<'a> {
    command(alloc, "pas")
        .no_binary_name(true)
        .disable_help_subcommand(true)
        .disable_version_flag(true)
        .subcommand_required(true)
}

/// The program's command with those below it that read an input.
fn reading<'a>(alloc: Global) -> Result<Command<'a>, AllocError> {
    program(alloc)
        .subcommand(command(alloc, "order"))?
        .subcommand(command(alloc, "run"))?
        .subcommand(command(alloc, "check"))
}

/// The program's command with all that are below it: one level of subcommands, without help and version.
fn whole<'a>(alloc: Global) -> Result<Command<'a>, AllocError> {
    let generate = generating(alloc)?;
    reading(alloc)?.subcommand(generate)
}

/// The words as `clap` reads them.
fn parsed<'a>(alloc: Global, words: &'a [String]) -> Result<ArgMatches<'a>, Error> {
    whole(alloc)?.try_get_matches_from(words)
}

/// Whether `clap` read the words as this call.
fn is_reading(matches: &ArgMatches, call: &Call) -> bool {
    match (matches.subcommand(), call) {
        (Some(("order", _)), Call::Replay(Manner::InOrder)) => true,
        (Some(("run", _)), Call::Replay(Manner::OnThreads)) => true,
        (Some(("check", _)), Call::Check) => true,
        (Some(("gen", values)), Call::Gen(job)) => {
            is_value(values, "SEED", job.seed)
                && is_value(values, "OPS", job.ops as u64)
                && is_value(values, "THREADS", job.threads as u64)
                && is_value(values, "PAGES", job.pages as u64)
        }
        _ => false,
    }
}

/// Whether the value of this name is this number.
fn is_value(values: &ArgMatches, name: &str, expected: u64) -> bool {
    match values.get_str(name) {
        Some(word) => number(word.as_bytes()) == Some(expected),
        None => false,
    }
}
