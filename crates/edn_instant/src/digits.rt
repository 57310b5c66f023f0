//! Digits and marks in front of a text.
ghost use Rattle.std.specs.Prelude.{◌≡◌, ◌≢◌, ◌∷◌, ℕ, List, MatchOption};
ghost use Rattle.std.specs.List.{prefix_len};
ghost use Rattle.edn_model.specs.Bytes.{is_digit};
ghost use Rattle.edn_model.specs.Runs.{IsRun};
ghost use Rattle.edn_instant.specs.Fronts.{IsTwo, IsFour, Front, NoFront};

fn is_digit(b: u8) -> bool
    ensures { result ≡ is_digit b }
{
    matches!(b, b'0'..=b'9')
}

/// Two digits as a number, and what follows.
pub fn two(bytes: &[u8]) -> Option<(u32, &[u8])>
    ensures { MatchOption result ((n : ℕ) → NoFront (IsTwo n) bytes.now)
        (λ r. Front (IsTwo r.0) bytes.now r.1.now) }
{
    let (tens, rest) = bytes.split_first()?;
    let (ones, rest) = rest.split_first()?;
    if !is_digit(*tens) || !is_digit(*ones) {
        return None;
    }
    Some((u32::from(*tens - b'0') * 10 + u32::from(*ones - b'0'), rest))
}

/// Four digits as a number, and what follows.
pub fn four(bytes: &[u8]) -> Option<(u32, &[u8])>
    ensures { MatchOption result ((n : ℕ) → NoFront (IsFour n) bytes.now)
        (λ r. Front (IsFour r.0) bytes.now r.1.now) }
{
    let (high, rest) = two(bytes)?;
    let (low, rest) = two(rest)?;
    Some((high * 100 + low, rest))
}

/// What follows the mark.
pub fn behind(mark: u8, bytes: &[u8]) -> Option<&[u8]>
    ensures { MatchOption result ((rest : List ℕ) → bytes.now ≢ mark ∷ rest)
        (λ rest. bytes.now ≡ mark ∷ rest.now) }
{
    let (first, rest) = bytes.split_first()?;
    if *first == mark { Some(rest) } else { None }
}

/// The digits in front, and what follows.
pub fn split_digits(bytes: &[u8]) -> (&[u8], &[u8])
    ensures { IsRun is_digit bytes.now result.0.now result.1.now }
{
    bytes.split_at(digits_len(bytes))
}

fn digits_len(bytes: &[u8]) -> usize
    ensures { result ≡ prefix_len is_digit bytes.now }
{
    bytes.iter().take_while(|b| is_digit(**b)).count()
}
