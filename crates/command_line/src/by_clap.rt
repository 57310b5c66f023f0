//! The words after a verb, read by `clap`.
ghost use Rattle.std.specs.Prelude.{◌≡◌, map, string_bytes, true, IfOk};
ghost use Rattle.std.specs.Option.{option_map};
ghost use Rattle.clap.specs.Words.{app_of, found_of, is_simple_and_free, rows_of};
ghost use Rattle.command_line.specs.ByClap.{plain_app, run_app, name_app, pair_app, parsed};

use clap::error::ErrorKind;
use clap::{Arg, ArgAction, ArgMatches, Command};
use fb_memory::Memory;
use std::alloc::Global;

/// `[--merge-at N] [--strict] DIR SCRIPT..`
pub(crate) fn run_command<'a>(alloc: Global) -> Result<Command<'a>, Memory>
    ensures { IfOk result (λ command. app_of command ≡ run_app) }
{
    let merge_at = Arg::new(alloc, "merge-at")
        .long("merge-at")
        .action(ArgAction::Set);
    let strict = Arg::new(alloc, "strict")
        .long("strict")
        .action(ArgAction::SetTrue);
    let directory = Arg::new(alloc, "DIR").required(true);
    // An option may come between two scripts.
    let script = Arg::new(alloc, "SCRIPT")
        .required(true)
        .action(ArgAction::Append);
    let command = plain(alloc, "run");
    Ok(
        command
            .arg(merge_at)?
            .arg(strict)?
            .arg(directory)?
            .arg(script)?,
    )
}

/// One name, as it follows `check` and `load`.
pub(crate) fn name_command<'a>(alloc: Global) -> Result<Command<'a>, Memory>
    ensures { IfOk result (λ command. app_of command ≡ name_app) }
{
    let name = Arg::new(alloc, "NAME").required(true);
    Ok(plain(alloc, "factbase").arg(name)?)
}

/// Two names, as they follow `backup`.
pub(crate) fn pair_command<'a>(alloc: Global) -> Result<Command<'a>, Memory>
    ensures { IfOk result (λ command. app_of command ≡ pair_app) }
{
    let from = Arg::new(alloc, "DIR").required(true);
    let to = Arg::new(alloc, "DIR2").required(true);
    Ok(plain(alloc, "factbase").arg(from)?.arg(to)?)
}

/// A command with no arguments yet, which reads `--help` and `--version` as any other word.
fn plain<'a>(alloc: Global, name: &'a str) -> Command<'a>
    ensures { app_of result ≡ plain_app name.now }
{
    Command::new(alloc, name)
        .no_binary_name(true)
        .disable_help_flag(true)
        .disable_version_flag(true)
}

/// What the command finds in the words, unless it refuses them.
pub(crate) fn matches_in<'a>(
    command: Command<'a>,
    words: &'a [String],
) -> Result<Option<ArgMatches<'a>>, Memory>
    ensures { is_simple_and_free (app_of command.entry) ≡ true → IfOk result
        (λ matches. option_map (λ m. rows_of (found_of m)) matches
        ≡ parsed (app_of command.entry) (map string_bytes words.entry.now)) }
{
    match command.try_get_matches_from(words) {
        Ok(matches) => Ok(Some(matches)),
        Err(error) => match error.kind() {
            ErrorKind::OutOfMemory => Err(Memory),
            _ => Ok(None),
        },
    }
}
