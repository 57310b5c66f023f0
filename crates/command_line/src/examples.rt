//! Which words are a command, and where its lines go, by computation.
ghost use Rattle.std.specs.Prelude.{◌≡◌, [], ◌∷◌, Some, None, true, false, codes};
ghost use Rattle.command_line.specs.Samples.{plain_run, strict_run};
ghost use Rattle.command_line.specs.Words.{check, load, backup, command_of, is_strict, sink_of};

/// A name or more after `run` and a directory is a command.
pub fn words()
    ensures standard_input { command_of (codes "run" ∷ codes ":memory:" ∷ codes "-" ∷ [])
        ≡ plain_run 65536 (codes ":memory:") (codes "-" ∷ []) }
    ensures two_scripts { command_of (codes "run" ∷ codes ":memory:" ∷ codes "a" ∷ codes "b" ∷ [])
        ≡ plain_run 65536 (codes ":memory:") (codes "a" ∷ codes "b" ∷ []) }
    ensures no_script { command_of (codes "run" ∷ codes ":memory:" ∷ []) ≡ None }
    ensures directory { command_of (codes "run" ∷ codes "data" ∷ codes "-" ∷ [])
        ≡ plain_run 65536 (codes "data") (codes "-" ∷ []) }
    ensures verb { command_of (codes "look" ∷ codes ":memory:" ∷ codes "-" ∷ []) ≡ None }
    ensures no_word { command_of [] ≡ None }
{}

/// A look at a directory names it alone.
pub fn looks()
    ensures one { command_of (codes "check" ∷ codes "data" ∷ []) ≡ Some (check (codes "data")) }
    ensures behind_options { command_of (codes "check" ∷ codes "--" ∷ codes "-a" ∷ [])
        ≡ Some (check (codes "-a")) }
    ensures no_more { command_of (codes "check" ∷ codes "data" ∷ codes "--" ∷ [])
        ≡ Some (check (codes "data")) }
    ensures option { command_of (codes "check" ∷ codes "-a" ∷ []) ≡ None }
    ensures two { command_of (codes "check" ∷ codes "data" ∷ codes "more" ∷ []) ≡ None }
    ensures none { command_of (codes "check" ∷ []) ≡ None }
{}

/// The generator has one number, from 1 to 5000.
pub fn loads()
    ensures one { command_of (codes "load" ∷ codes "4" ∷ []) ≡ Some (load 4) }
    ensures greatest { command_of (codes "load" ∷ codes "5000" ∷ []) ≡ Some (load 5000) }
    ensures behind_options { command_of (codes "load" ∷ codes "--" ∷ codes "4" ∷ [])
        ≡ Some (load 4) }
    ensures too_great { command_of (codes "load" ∷ codes "5001" ∷ []) ≡ None }
    ensures zero { command_of (codes "load" ∷ codes "0" ∷ []) ≡ None }
    ensures leading_zero { command_of (codes "load" ∷ codes "04" ∷ []) ≡ None }
    ensures no_number { command_of (codes "load" ∷ codes "-" ∷ []) ≡ None }
    ensures two { command_of (codes "load" ∷ codes "4" ∷ codes "4" ∷ []) ≡ None }
    ensures none { command_of (codes "load" ∷ []) ≡ None }
{}

/// A backup has two names, which differ.
pub fn backups()
    ensures one { command_of (codes "backup" ∷ codes "a" ∷ codes "b" ∷ [])
        ≡ Some (backup (codes "a") (codes "b")) }
    ensures from_memory { command_of (codes "backup" ∷ codes ":memory:" ∷ codes "b" ∷ [])
        ≡ Some (backup (codes ":memory:") (codes "b")) }
    ensures odd_names { command_of (codes "backup" ∷ codes "-" ∷ [] ∷ [])
        ≡ Some (backup (codes "-") []) }
    ensures options_end_first { command_of
        (codes "backup" ∷ codes "--" ∷ codes "-a" ∷ codes "-b" ∷ [])
        ≡ Some (backup (codes "-a") (codes "-b")) }
    ensures options_end_between { command_of
        (codes "backup" ∷ codes "a" ∷ codes "--" ∷ codes "-b" ∷ [])
        ≡ Some (backup (codes "a") (codes "-b")) }
    ensures options_end_last { command_of
        (codes "backup" ∷ codes "a" ∷ codes "b" ∷ codes "--" ∷ [])
        ≡ Some (backup (codes "a") (codes "b")) }
    ensures named_by_dashes { command_of
        (codes "backup" ∷ codes "a" ∷ codes "--" ∷ codes "--" ∷ [])
        ≡ Some (backup (codes "a") (codes "--")) }
    ensures same { command_of (codes "backup" ∷ codes "a" ∷ codes "a" ∷ []) ≡ None }
    ensures same_behind_options { command_of
        (codes "backup" ∷ codes "a" ∷ codes "--" ∷ codes "a" ∷ []) ≡ None }
    ensures no_name { command_of (codes "backup" ∷ []) ≡ None }
    ensures one_name { command_of (codes "backup" ∷ codes "a" ∷ []) ≡ None }
    ensures one_name_behind_options { command_of
        (codes "backup" ∷ codes "--" ∷ codes "a" ∷ []) ≡ None }
    ensures three_names { command_of
        (codes "backup" ∷ codes "a" ∷ codes "b" ∷ codes "c" ∷ []) ≡ None }
    ensures three_behind_options { command_of
        (codes "backup" ∷ codes "--" ∷ codes "a" ∷ codes "b" ∷ codes "c" ∷ []) ≡ None }
    ensures option { command_of (codes "backup" ∷ codes "-a" ∷ codes "b" ∷ []) ≡ None }
    ensures second_option { command_of (codes "backup" ∷ codes "a" ∷ codes "-b" ∷ []) ≡ None }
    ensures option_before_end { command_of
        (codes "backup" ∷ codes "a" ∷ codes "-b" ∷ codes "--" ∷ []) ≡ None }
    ensures strict { command_of
        (codes "backup" ∷ codes "--strict" ∷ codes "a" ∷ codes "b" ∷ []) ≡ None }
    ensures shortened { command_of (codes "back" ∷ codes "a" ∷ codes "b" ∷ []) ≡ None }
{}

/// Options may be anywhere in front of `--`, and `--merge-at` once at most.
pub fn options()
    ensures next_word { command_of
        (codes "run" ∷ codes ":memory:" ∷ codes "--merge-at" ∷ codes "8" ∷ codes "a" ∷ [])
        ≡ plain_run 8 (codes ":memory:") (codes "a" ∷ []) }
    ensures own_rest { command_of
        (codes "run" ∷ codes ":memory:" ∷ codes "a" ∷ codes "--merge-at=1000000" ∷ [])
        ≡ plain_run 1000000 (codes ":memory:") (codes "a" ∷ []) }
    ensures behind_options { command_of
        (codes "run" ∷ codes ":memory:" ∷ codes "--" ∷ codes "-a" ∷ [])
        ≡ plain_run 65536 (codes ":memory:") (codes "-a" ∷ []) }
    ensures unknown { command_of (codes "run" ∷ codes ":memory:" ∷ codes "-a" ∷ []) ≡ None }
    ensures twice { command_of (codes "run" ∷ codes "--merge-at=1" ∷ codes "--merge-at=1"
        ∷ codes ":memory:" ∷ codes "a" ∷ []) ≡ None }
    ensures leading_zero { command_of
        (codes "run" ∷ codes "--merge-at=08" ∷ codes ":memory:" ∷ codes "a" ∷ []) ≡ None }
    ensures too_great { command_of
        (codes "run" ∷ codes "--merge-at=1000001" ∷ codes ":memory:" ∷ codes "a" ∷ []) ≡ None }
    ensures no_number { command_of
        (codes "run" ∷ codes ":memory:" ∷ codes "a" ∷ codes "--merge-at" ∷ []) ≡ None }
{}

/// `--strict` may be anywhere in front of `--`, once at most, and takes no value.
pub fn strictly()
    ensures first { command_of
        (codes "run" ∷ codes "--strict" ∷ codes ":memory:" ∷ codes "-" ∷ [])
        ≡ strict_run 65536 (codes ":memory:") (codes "-" ∷ []) }
    ensures last { command_of (codes "run" ∷ codes "data" ∷ codes "a" ∷ codes "--strict" ∷ [])
        ≡ strict_run 65536 (codes "data") (codes "a" ∷ []) }
    ensures between_scripts { command_of
        (codes "run" ∷ codes "data" ∷ codes "a" ∷ codes "--strict" ∷ codes "b" ∷ [])
        ≡ strict_run 65536 (codes "data") (codes "a" ∷ codes "b" ∷ []) }
    ensures with_number { command_of
        (codes "run" ∷ codes "--merge-at" ∷ codes "8" ∷ codes "--strict" ∷ codes "data"
        ∷ codes "a" ∷ []) ≡ strict_run 8 (codes "data") (codes "a" ∷ []) }
    ensures number_behind { command_of
        (codes "run" ∷ codes "--strict" ∷ codes "data" ∷ codes "--merge-at=8" ∷ codes "a" ∷ [])
        ≡ strict_run 8 (codes "data") (codes "a" ∷ []) }
    ensures behind_options { command_of
        (codes "run" ∷ codes "data" ∷ codes "--" ∷ codes "--strict" ∷ [])
        ≡ plain_run 65536 (codes "data") (codes "--strict" ∷ []) }
    ensures twice { command_of (codes "run" ∷ codes "--strict" ∷ codes "--strict"
        ∷ codes ":memory:" ∷ codes "-" ∷ []) ≡ None }
    ensures twice_apart { command_of (codes "run" ∷ codes "--strict" ∷ codes "data"
        ∷ codes "a" ∷ codes "--strict" ∷ []) ≡ None }
    ensures value { command_of
        (codes "run" ∷ codes "--strict=x" ∷ codes "data" ∷ codes "a" ∷ []) ≡ None }
    ensures no_value { command_of
        (codes "run" ∷ codes "--strict=" ∷ codes "data" ∷ codes "a" ∷ []) ≡ None }
    ensures for_number { command_of
        (codes "run" ∷ codes "--merge-at" ∷ codes "--strict" ∷ codes "data" ∷ codes "a" ∷ [])
        ≡ None }
    ensures shortened { command_of
        (codes "run" ∷ codes "--stric" ∷ codes "data" ∷ codes "a" ∷ []) ≡ None }
    ensures lengthened { command_of
        (codes "run" ∷ codes "--strictly" ∷ codes "data" ∷ codes "a" ∷ []) ≡ None }
    ensures one_dash { command_of
        (codes "run" ∷ codes "-strict" ∷ codes "data" ∷ codes "a" ∷ []) ≡ None }
    ensures look { command_of (codes "check" ∷ codes "--strict" ∷ codes "data" ∷ []) ≡ None }
    ensures look_behind_options { command_of (codes "check" ∷ codes "--" ∷ codes "--strict" ∷ [])
        ≡ Some (check (codes "--strict")) }
    ensures generator { command_of (codes "load" ∷ codes "--strict" ∷ codes "4" ∷ []) ≡ None }
    ensures not_first { command_of
        (codes "--strict" ∷ codes "run" ∷ codes "data" ∷ codes "a" ∷ []) ≡ None }
{}

/// The guard counts in a run that asks for it, and in no other command.
pub fn strictness()
    ensures asked { is_strict (strict_run 8 (codes "data") (codes "a" ∷ [])) ≡ true }
    ensures not_asked { is_strict (plain_run 8 (codes "data") (codes "a" ∷ [])) ≡ false }
    ensures look { is_strict (Some (check (codes "data"))) ≡ false }
    ensures generator { is_strict (Some (load 4)) ≡ false }
    ensures copy { is_strict (Some (backup (codes "a") (codes "b"))) ≡ false }
    ensures no_command { is_strict None ≡ false }
{}

/// What looks odd: a dash alone and the empty word are names, and what begins with a dash is no number.
pub fn odd_words()
    ensures dashes { command_of (codes "run" ∷ codes "-" ∷ codes "-" ∷ [])
        ≡ plain_run 65536 (codes "-") (codes "-" ∷ []) }
    ensures empty { command_of (codes "run" ∷ [] ∷ [] ∷ [])
        ≡ plain_run 65536 [] ([] ∷ []) }
    ensures end_at_the_end { command_of (codes "run" ∷ codes "data" ∷ codes "a" ∷ codes "--" ∷ [])
        ≡ plain_run 65536 (codes "data") (codes "a" ∷ []) }
    ensures second_end { command_of (codes "run" ∷ codes "--" ∷ codes "data" ∷ codes "--" ∷ [])
        ≡ plain_run 65536 (codes "data") (codes "--" ∷ []) }
    ensures between_scripts { command_of
        (codes "run" ∷ codes "data" ∷ codes "a" ∷ codes "--merge-at" ∷ codes "8" ∷ codes "b" ∷ [])
        ≡ plain_run 8 (codes "data") (codes "a" ∷ codes "b" ∷ []) }
    ensures end_for_number { command_of
        (codes "run" ∷ codes "--merge-at" ∷ codes "--" ∷ codes "data" ∷ codes "a" ∷ []) ≡ None }
    ensures less_than_none { command_of
        (codes "run" ∷ codes "--merge-at" ∷ codes "-5" ∷ codes "data" ∷ codes "a" ∷ []) ≡ None }
    ensures no_digits { command_of
        (codes "run" ∷ codes "--merge-at=" ∷ codes "data" ∷ codes "a" ∷ []) ≡ None }
    ensures shortened { command_of
        (codes "run" ∷ codes "--merge=8" ∷ codes "data" ∷ codes "a" ∷ []) ≡ None }
    ensures help { command_of
        (codes "run" ∷ codes "data" ∷ codes "a" ∷ codes "--help" ∷ []) ≡ None }
{}

/// No script is where the lines of another one go.
pub fn scripts()
    ensures twice { command_of
        (codes "run" ∷ codes ":memory:" ∷ codes "a" ∷ codes "a" ∷ []) ≡ None }
    ensures own_lines { command_of
        (codes "run" ∷ codes ":memory:" ∷ codes "a.out" ∷ codes "a" ∷ []) ≡ None }
{}

/// The lines of a file go into a file beside it, and those of standard input to standard output.
pub fn sinks()
    ensures file { sink_of (codes "a.edn") ≡ codes "a.edn.out" }
    ensures standard_output { sink_of (codes "-") ≡ codes "-" }
{}
