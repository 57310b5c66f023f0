//! Identifiers: 36 bytes that `uuid` reads.
ghost use Rattle.std.specs.Prelude.{ℕ, MatchOption};
ghost use Rattle.edn_model.specs.Uuids.{IsUuid};

use uuid::Uuid;

/// The identifier that a text of 36 bytes says, as the number of its sixteen bytes, the first the most significant.
pub fn read_uuid(text: &str) -> Option<u128>
    ensures { MatchOption result ((n : ℕ) → ¬ IsUuid n text.now) (λ n. IsUuid n text.now) }
{
    if text.len() != 36 {
        return None;
    }
    match Uuid::try_parse(text) {
        Ok(uuid) => Some(uuid.as_u128()),
        Err(_) => None,
    }
}
