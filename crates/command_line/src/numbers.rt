//! The numbers of `--merge-at` and `load`.
ghost use Rattle.std.specs.Prelude.{◌≡◌, ◌≤◌, IfSome};
ghost use Rattle.std.specs.Option.{option_map};
ghost use Rattle.command_line.specs.Words.{begins_above_zero, number_up_to, greatest_load, merge_at_in};

/// The number of `--merge-at` where none is given.
const USUAL_MERGE_AT: u64 = 65_536;

const GREATEST_MERGE_AT: u64 = 1_000_000;

const GREATEST_LOAD: u64 = 5_000;

/// The number of `--merge-at` that is given, or else the usual one.
pub(crate) fn merge_at_in(word: Option<&str>) -> Option<u64>
    ensures is { result ≡ merge_at_in (option_map (λ s. s.now) word.entry) }
    ensures positive { IfSome result (λ n. 1 ≤ n) }
{
    match word {
        Some(word) => number_up_to(word, GREATEST_MERGE_AT),
        None => Some(USUAL_MERGE_AT),
    }
}

/// The number of `load`.
pub(crate) fn load_in(word: &str) -> Option<u32>
    ensures { result ≡ number_up_to greatest_load word.now }
{
    match number_up_to(word, GREATEST_LOAD) {
        Some(n) => Some(n as u32),
        None => None,
    }
}

/// The number that a word of decimal digits writes, without a leading zero, from 1 to the greatest.
fn number_up_to(word: &str, greatest: u64) -> Option<u64>
    ensures is { result ≡ number_up_to greatest word.now }
    ensures positive { IfSome result (λ n. 1 ≤ n) }
    ensures most { IfSome result (λ n. n ≤ greatest) }
{
    if !begins_above_zero(word.as_bytes()) {
        return None;
    }
    let Ok(n) = word.parse::<u64>() else {
        return None;
    };
    if n < 1 || greatest < n {
        return None;
    }
    Some(n)
}

fn begins_above_zero(word: &[u8]) -> bool
    ensures { result ≡ begins_above_zero word.now }
{
    match word {
        [] => false,
        [first, ..] => b'1' <= *first && *first <= b'9',
    }
}
