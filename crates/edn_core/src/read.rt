//! Reads the next form.
ghost use Rattle.std.specs.Prelude.{◌≡◌, ◌<◌, ◌≤◌, ℕ, ⊤, [], length};
ghost use Rattle.edn_model.specs.Form.{Form};
ghost use Rattle.edn_model.specs.Grammar.{FormAt, OnlyGap};
ghost use Rattle.edn_model.specs.Faults.{Fault, FaultAt};
ghost use Rattle.edn_core.specs.Answers.{MatchAnswer, Answers};

use crate::construct::{Frame, Frames};
use crate::fault::EdnFault;
use crate::progress::Progress;
use crate::step::step;
use edn_form::Edn;
use std::alloc::Global;

/// The next form from a place on, and the place after its text; none where white space, comments and
/// discarded forms alone remain.
pub fn read_form(alloc: Global, bytes: &[u8], at: usize) -> Result<Option<(Edn, usize)>, EdnFault>
    ensures next { MatchAnswer result
        (FormAt bytes.now at) (OnlyGap bytes.now at) (FaultAt bytes.now at) }
    ensures ahead { MatchAnswer result
        (λ _ next. (at < next) × (next ≤ length bytes.now)) ⊤
        (λ _ byte. (at ≤ byte) × (byte ≤ length bytes.now)) }
    ensures form { (f : Form) (next : ℕ) → FormAt bytes.now at f next
        → MatchAnswer result (λ g m. (g ≡ f) × (m ≡ next)) ⊥ (λ _ _. ⊥) }
    ensures end { OnlyGap bytes.now at → MatchAnswer result (λ _ _. ⊥) ⊤ (λ _ _. ⊥) }
    ensures fault { (why : Fault) (byte : ℕ) → FaultAt bytes.now at why byte
        → MatchAnswer result (λ _ _. ⊥) ⊥ (λ a b. (a ≡ why) × (b ≡ byte)) }
{
    read_form_in(&mut Frames::new(alloc), alloc, bytes, at)
}

/// The same, in frames that may have served before: what was open in them is dropped.
pub fn read_form_in(
    frames: &mut Frames,
    alloc: Global,
    bytes: &[u8],
    at: usize,
) -> Result<Option<(Edn, usize)>, EdnFault>
    ensures next { MatchAnswer result
        (FormAt bytes.now at) (OnlyGap bytes.now at) (FaultAt bytes.now at) }
    ensures ahead { MatchAnswer result
        (λ _ next. (at < next) × (next ≤ length bytes.now)) ⊤
        (λ _ byte. (at ≤ byte) × (byte ≤ length bytes.now)) }
    ensures form { (f : Form) (next : ℕ) → FormAt bytes.now at f next
        → MatchAnswer result (λ g m. (g ≡ f) × (m ≡ next)) ⊥ (λ _ _. ⊥) }
    ensures end { OnlyGap bytes.now at → MatchAnswer result (λ _ _. ⊥) ⊤ (λ _ _. ⊥) }
    ensures fault { (why : Fault) (byte : ℕ) → FaultAt bytes.now at why byte
        → MatchAnswer result (λ _ _. ⊥) ⊥ (λ a b. (a ≡ why) × (b ≡ byte)) }
{
    frames.open.clear();
    answer(&mut frames.open, alloc, bytes, at)
}

/// Reads from a place on, where nothing is open.
fn answer(
    frames: &mut Vec<Frame>,
    alloc: Global,
    bytes: &[u8],
    at: usize,
) -> Result<Option<(Edn, usize)>, EdnFault>
    requires { frames.now.items ≡ [] }
    ensures { Answers bytes.now at result }
{
    if bytes.len() < at {
        return Ok(None);
    }
    let (mut slot, mut here) = (None, at);
    'steps: loop {
        match step(alloc, bytes, frames, &mut slot, here)? {
            Progress::Further(next) => here = next,
            Progress::Read(next) => match slot {
                Some(form) => return Ok(Some((form, next))),
                None => unreachable!(),
            },
            Progress::End => return Ok(None),
        }
    }
}
