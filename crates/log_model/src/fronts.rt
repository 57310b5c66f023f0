//! A law about the first bytes of payloads.
ghost use Rattle.std.specs.Prelude.{◌≡◌, ℕ, List, ◌++◌, IsTrue, replicate, take, true, false};
ghost use Rattle.log_model.specs.Fields.{u32_bytes};
ghost use Rattle.log_model.specs.Samples.{hi_payload};
ghost use Rattle.log_model.specs.Fronts.{has_whole_field};
ghost use Rattle.log_model.specs.Payload.{payload_says, breaks_at};
ghost use Rattle.log_model.specs.Nodes.{Nodes};
ghost use Rattle.log_model.specs.Merges.{record_says, bad_from};

/// What does not fit in the first bytes of a payload fits in no payload that begins so, unless it is a field that they cut
/// off.
pub fn a_front_tells_a_misfit()
    ensures payload { (front rest : List ℕ) (byte : ℕ)
        → payload_says front ≡ breaks_at byte → IsTrue (has_whole_field front byte)
        → payload_says (front ++ rest) ≡ breaks_at byte }
    ensures record { (nodes : Nodes) (front rest : List ℕ) (byte : ℕ)
        → record_says nodes front ≡ bad_from byte → IsTrue (has_whole_field front byte)
        → record_says nodes (front ++ rest) ≡ bad_from byte }
{}

/// Fronts that end in a field, and fronts that cut one off.
pub fn fronts_of_payloads()
    ensures number { has_whole_field (replicate 16 0) 0 ≡ true }
    ensures number_cut_off { has_whole_field (replicate 15 0) 0 ≡ false }
    ensures text { has_whole_field (u32_bytes 17 ++ replicate 17 0) 4 ≡ true }
    ensures text_cut_off { has_whole_field (u32_bytes 17 ++ replicate 16 0) 4 ≡ false }
    ensures zeros { payload_says (replicate 16 0) ≡ breaks_at 0 }
    ensures zeros_behind { payload_says (take 33 hi_payload ++ replicate 64 0) ≡ breaks_at 33 }
    ensures told { has_whole_field (take 33 hi_payload ++ replicate 64 0) 33 ≡ true }
{}
