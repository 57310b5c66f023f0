//! What the first bytes of a payload tell of the whole.
ghost use Rattle.std.specs.Prelude.{◌≡◌, ◌≤◌, ◌++◌, ⊤, ℕ, List, length, true, false, IfOk, MatchOption};
ghost use Rattle.log_model.specs.Fronts.{has_whole_field as model_has_whole_field};
ghost use Rattle.log_model.specs.Payload.{payload_says, breaks_at};

use crate::entries::entry_of;
use crate::faults::BytesFault;
use fb_memory::Memory;
use log_model::{a_fault_lies_in_its_payload, a_front_tells_a_misfit, numbers_are_big_endian};
use std::alloc::Global;

/// The bytes of the longest number.
const LONGEST_NUMBER: usize = 16;

/// The bytes of a text's length.
const TEXT_LENGTH: usize = 4;

/// The byte at which each payload breaks that begins with this front, where the front tells it.
pub fn misfit_in_front(alloc: Global, front: &[u8]) -> Result<Option<u64>, Memory>
    ensures tells { IfOk result (λ told. MatchOption told ⊤ (λ byte. (rest : List ℕ)
        → payload_says (front.now ++ rest) ≡ breaks_at byte)) }
    ensures untold { IfOk result (λ told. MatchOption told ((byte : ℕ)
        → payload_says front.now ≡ breaks_at byte
        → model_has_whole_field front.now byte ≡ false) (λ _. ⊤)) }
    ensures within { IfOk result (λ told. MatchOption told ⊤ (λ byte. byte ≤ length front.now)) }
{
    a_front_tells_a_misfit();
    a_fault_lies_in_its_payload();
    match entry_of(alloc, front) {
        Ok(_) => Ok(None),
        Err(BytesFault::At { byte }) => Ok(told_at(front, byte)),
        Err(BytesFault::Memory) => Err(Memory),
    }
}

/// The byte, if the field that begins there is no field that the front cuts off.
fn told_at(front: &[u8], byte: u64) -> Option<u64>
    ensures { MatchOption result (model_has_whole_field front.now byte ≡ false)
        (λ told. (told ≡ byte) × (model_has_whole_field front.now byte ≡ true)) }
{
    if has_whole_field(front, byte) {
        Some(byte)
    } else {
        None
    }
}

/// Whether the field that begins at this byte ends within the front, whatever field it is.
pub fn has_whole_field(front: &[u8], byte: u64) -> bool
    ensures { result ≡ model_has_whole_field front.now byte }
{
    numbers_are_big_endian();
    let at = byte as usize;
    if front.len() < LONGEST_NUMBER || front.len() - LONGEST_NUMBER < at {
        return false;
    }
    match front[..at].split_last_chunk::<TEXT_LENGTH>() {
        None => true,
        Some((_, four)) => u32::from_be_bytes(*four) as usize <= front.len() - at,
    }
}
