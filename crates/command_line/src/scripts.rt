//! The names of scripts, and where their lines go.
ghost use Rattle.std.specs.Prelude.{◌≡◌, map, string_bytes, IfOk};
ghost use Rattle.std.specs.List.{list_any};
ghost use Rattle.command_line.specs.Views.{names_in};
ghost use Rattle.command_line.specs.Words.{is_out_of, clash, are_apart, are_scripts, sink_of};

use fb_memory::Memory;
use std::alloc::Global;

const MOST_SCRIPTS: usize = 16;

/// Whether these are scripts that may run together.
pub(crate) fn are_scripts(names: &[&str]) -> bool
    ensures { result ≡ are_scripts (names_in names.now) }
{
    !names.is_empty() && names.len() <= MOST_SCRIPTS && are_apart(names)
}

/// Whether no two clash. There are few.
fn are_apart(names: &[&str]) -> bool
    ensures { result ≡ are_apart (names_in names.now) }
{
    match names {
        [] => true,
        [name, rest @ ..] => !clashes(*name, rest) && are_apart(rest),
    }
}

/// Whether the name clashes with one of the others.
fn clashes(name: &str, others: &[&str]) -> bool
    ensures { result ≡ list_any (clash name.now) (names_in others.now) }
{
    match others {
        [] => false,
        [other, rest @ ..] => clash(name, *other) || clashes(name, rest),
    }
}

/// Whether two scripts are the same, or one would be where the other's lines go.
fn clash(one: &str, other: &str) -> bool
    ensures { result ≡ clash one.now other.now }
{
    one == other || is_out_of(one, other) || is_out_of(other, one)
}

/// Whether the name is the script's with `.out` after it.
fn is_out_of(name: &str, script: &str) -> bool
    ensures { result ≡ is_out_of name.now script.now }
{
    match name.as_bytes().strip_prefix(script.as_bytes()) {
        Some(rest) => rest == b".out".as_slice(),
        None => false,
    }
}

/// The name of the sink for a script's lines.
pub fn sink_name(alloc: Global, script: &str) -> Result<String, Memory>
    ensures { IfOk result (λ name. string_bytes name ≡ sink_of script.now) }
{
    if script == "-" {
        return Ok(String::from_str(alloc, "-")?);
    }
    Ok(format!(in alloc; "{script}.out")?)
}
