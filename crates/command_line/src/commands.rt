//! What the words of a command line ask for.
ghost use Rattle.std.specs.Prelude.{◌≡◌, ◌≢◌, ◌≤◌, ◌∷◌, true, map, Some, string_bytes, IfSome, IfOk};
ghost use Rattle.std.specs.Option.{option_map, option_and_then};
ghost use Rattle.clap.specs.Words.{found_of, rows_of};
ghost use Rattle.command_line.specs.ByClap.{is_set, run_parsed, pair_parsed};
ghost use Rattle.command_line.specs.Words.{load, are_scripts, merge_at_in, start, walked, command_with, command_from, one_name, load_of, between, backup_of, command_of};
ghost use Rattle.command_line.specs.Views.{names_in, run_by, backup_by, command_by, CanRun};

use crate::by_clap::{matches_in, name_command, pair_command, run_command};
use crate::numbers::{load_in, merge_at_in};
use crate::scripts::are_scripts;
use clap::ArgMatches;
use fb_memory::Memory;
use std::alloc::Global;

/// The options of a run.
#[derive(Clone, Copy)]
pub struct Options {
    /// From how many live datoms on a merge is due.
    pub merge_at: u64,
    /// Whether the program's guard judges what the scripts ask for.
    pub strict: bool,
}

/// A run of scripts over the history that a directory keeps. The names are those of the words.
#[derive(Drop)]
pub struct Run<'a> {
    pub options: Options,
    pub directory: &'a str,
    pub scripts: Vec<&'a str>,
}

/// A copy of what one directory keeps to another. The names differ.
#[derive(Clone, Copy)]
pub struct Backup<'a> {
    pub from: &'a str,
    pub to: &'a str,
}

/// What the words of a command line ask for.
#[derive(Drop)]
pub enum Request<'a> {
    Run(Run<'a>),
    /// A look at the history that this directory keeps.
    Check(&'a str),
    /// The generator, each of whose sessions records so many numbers.
    Load(u32),
    Backup(Backup<'a>),
}

/// The command that the words after the program's name are, where they are one.
pub fn command_in<'a>(alloc: Global, words: &'a [String]) -> Result<Option<Request<'a>>, Memory>
    ensures asks { IfOk result
        (λ asked. option_map command_by asked ≡ command_of (map string_bytes words.now)) }
    ensures runs { IfOk result (λ asked. IfSome asked CanRun) }
{
    let [verb, rest @ ..] = words else {
        return Ok(None);
    };
    if verb.as_str() == "run" {
        return match run_in(alloc, rest)? {
            Some(run) => Ok(Some(Request::Run(run))),
            None => Ok(None),
        };
    }
    if verb.as_str() == "check" {
        return match name_in(alloc, rest)? {
            Some(directory) => Ok(Some(Request::Check(directory))),
            None => Ok(None),
        };
    }
    if verb.as_str() == "load" {
        return match count_in(alloc, rest)? {
            Some(count) => Ok(Some(Request::Load(count))),
            None => Ok(None),
        };
    }
    if verb.as_str() != "backup" {
        return Ok(None);
    }
    match backup_in(alloc, rest)? {
        Some(backup) => Ok(Some(Request::Backup(backup))),
        None => Ok(None),
    }
}

/// How many numbers the words after `load` ask for.
fn count_in(alloc: Global, words: &[String]) -> Result<Option<u32>, Memory>
    ensures { IfOk result
        (λ count. option_map load count ≡ load_of (map string_bytes words.now)) }
{
    match name_in(alloc, words)? {
        Some(word) => Ok(load_in(word)),
        None => Ok(None),
    }
}

/// The one name that the words after the verb are.
fn name_in<'a>(alloc: Global, words: &'a [String]) -> Result<Option<&'a str>, Memory>
    ensures { IfOk result (λ name. option_map (λ s. s.now) name
        ≡ one_name (map string_bytes words.now)) }
{
    match matches_in(name_command(alloc)?, words)? {
        Some(matches) => Ok(matches.get_str("NAME")),
        None => Ok(None),
    }
}

/// The copy that the words after `backup` ask for.
fn backup_in<'a>(alloc: Global, words: &'a [String]) -> Result<Option<Backup<'a>>, Memory>
    ensures backup { IfOk result
        (λ backup. option_map backup_by backup ≡ backup_of (map string_bytes words.now)) }
    ensures apart { IfOk result (λ backup. IfSome backup (λ b. b.from.now ≢ b.to.now)) }
{
    match matches_in(pair_command(alloc)?, words)? {
        Some(matches) => Ok(backup_from(&matches)),
        None => Ok(None),
    }
}

/// The copy that the matches ask for.
fn backup_from<'a>(matches: &ArgMatches<'a>) -> Option<Backup<'a>>
    ensures backup { option_map backup_by result
        ≡ option_and_then between (pair_parsed (rows_of (found_of matches.now))) }
    ensures apart { IfSome result (λ b. b.from.now ≢ b.to.now) }
{
    let Some(from) = matches.get_str("DIR") else {
        return None;
    };
    let Some(to) = matches.get_str("DIR2") else {
        return None;
    };
    if from == to {
        return None;
    }
    Some(Backup { from, to })
}

/// The run that the words after the verb ask for.
fn run_in<'a>(alloc: Global, words: &'a [String]) -> Result<Option<Run<'a>>, Memory>
    ensures run { IfOk result (λ run. option_map run_by run
        ≡ command_from (walked (Some start) (map string_bytes words.now))) }
    ensures scripts { IfOk result (λ run. IfSome run
        (λ run. are_scripts (names_in run.scripts.items) ≡ true)) }
    ensures merge_at { IfOk result (λ run. IfSome run (λ run. 1 ≤ run.options.merge_at)) }
{
    match matches_in(run_command(alloc)?, words)? {
        Some(matches) => run_of(alloc, &matches),
        None => Ok(None),
    }
}

/// The run that the matches ask for.
fn run_of<'a>(alloc: Global, matches: &ArgMatches<'a>) -> Result<Option<Run<'a>>, Memory>
    ensures run { IfOk result (λ run. option_map run_by run
        ≡ run_parsed (rows_of (found_of matches.now))) }
    ensures scripts { IfOk result (λ run. IfSome run
        (λ run. are_scripts (names_in run.scripts.items) ≡ true)) }
    ensures merge_at { IfOk result (λ run. IfSome run (λ run. 1 ≤ run.options.merge_at)) }
{
    let Some(directory) = matches.get_str("DIR") else {
        return Ok(None);
    };
    let Some(scripts) = matches.get_strs("SCRIPT") else {
        return Ok(None);
    };
    let strict = is_set(matches.get_str("strict"));
    run_with(
        alloc,
        directory,
        scripts,
        matches.get_str("merge-at"),
        strict,
    )
}

/// Whether the word of a flag's match says that the flag was given.
fn is_set(word: Option<&str>) -> bool
    ensures { result ≡ is_set (option_map (λ s. s.now) word.entry) }
{
    match word {
        Some(word) => word == "true",
        None => false,
    }
}

/// The run of these scripts, where they may run together and the number is one.
fn run_with<'a>(
    alloc: Global,
    directory: &'a str,
    scripts: &[&'a str],
    number: Option<&'a str>,
    strict: bool,
) -> Result<Option<Run<'a>>, Memory>
    ensures run { IfOk result (λ run. option_map run_by run
        ≡ command_with (directory.entry.now ∷ names_in scripts.now)
        (merge_at_in (option_map (λ s. s.now) number.entry)) strict) }
    ensures scripts { IfOk result (λ run. IfSome run
        (λ run. are_scripts (names_in run.scripts.items) ≡ true)) }
    ensures merge_at { IfOk result (λ run. IfSome run (λ run. 1 ≤ run.options.merge_at)) }
{
    let Some(merge_at) = merge_at_in(number) else {
        return Ok(None);
    };
    if !are_scripts(scripts) {
        return Ok(None);
    }
    Ok(Some(Run {
        options: Options { merge_at, strict },
        directory,
        scripts: scripts.iter().copied().collect(alloc)?,
    }))
}
