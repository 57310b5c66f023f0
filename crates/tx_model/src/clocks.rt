//! What of a step depends on the clock.
ghost use Rattle.std.specs.Prelude.{◌≡◌, ℕ, ℤ, List};
ghost use Rattle.edn_model.specs.Form.{Form};
ghost use Rattle.fb_values.specs.declared.facts.Entry.{Entry};
ghost use Rattle.fb_model.specs.History.{next_instant};
ghost use Rattle.tx_refusals.specs.declared.reasons.Refusal.{Refusal};
ghost use Rattle.tx_model.specs.Step.{Guard, step, refused, accepted, IsAcceptedAt};

/// A transaction is refused in the same way whatever the clock reads.
pub fn refusals_do_not_depend_on_the_clock()
    ensures { (h : List Entry) (asked : Form) (guard : Guard) (refusal : Refusal) (one other : ℤ)
        → step h asked one guard ≡ refused refusal
        → step h asked other guard ≡ refused refusal }
{}

/// The entries of one transaction at two clocks have the same t, tempids and changes: they differ
/// in the instant and its datom.
pub fn two_clocks_differ_in_the_instant_alone()
    ensures { (h : List Entry) (asked : Form) (guard : Guard) (reading : ℤ)
        → (entry : Entry) (tempids : List (List ℕ × ℕ))
        → step h asked reading guard ≡ accepted entry tempids
        → IsAcceptedAt h asked (next_instant h reading) entry tempids }
{}
