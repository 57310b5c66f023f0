//! One step of the reader: over what is between forms, and over what comes next.
ghost use Rattle.std.specs.Prelude.{◌≡◌, ℕ, ◌≤◌, List, [], Option, length, drop};
ghost use Rattle.edn_token.specs.Gaps.{GoesNoFurther};
ghost use Rattle.edn_form.specs.declared.form.Edn.{Edn};
ghost use Rattle.edn_core.specs.Frames.{LeadsFrom};

use crate::construct::{Construct, Frame};
use crate::fault::EdnFault;
use crate::front::{Front, front_of};
use crate::land::{begin, close};
use crate::open;
use crate::progress::Progress;
use crate::token::{string, token};
use edn_form::Edn;
use edn_token::skip_blanks;
use std::alloc::Global;

pub(crate) fn step(
    alloc: Global,
    bytes: &[u8],
    frames: &mut Vec<Frame>,
    slot: &mut Option<Edn>,
    here: usize,
) -> Result<Progress, EdnFault>
    requires { here ≤ length bytes.now }
    ensures { LeadsFrom bytes.now here frames.old.items result frames.new.items slot.new }
{
    let (_, ahead) = bytes.split_at(here);
    match skip_blanks(ahead) {
        Ok(len) => take(alloc, bytes, frames, slot, here + len),
        Err(len) => Err(EdnFault::Bad { at: here + len }),
    }
}

/// Over what is here, which is neither white space nor a comment.
fn take(
    alloc: Global,
    bytes: &[u8],
    frames: &mut Vec<Frame>,
    slot: &mut Option<Edn>,
    at: usize,
) -> Result<Progress, EdnFault>
    requires within { at ≤ length bytes.now }
    requires further { GoesNoFurther (drop at bytes.now) }
    ensures { LeadsFrom bytes.now at frames.old.items result frames.new.items slot.new }
{
    let (_, here) = bytes.split_at(at);
    match front_of(here) {
        Front::End => end(frames.as_slice(), at),
        Front::Quote => string(alloc, bytes, frames, slot, at),
        Front::Closing(bracket) => close(alloc, frames, slot, bracket, at, at + 1),
        Front::Discard => begin(frames, Construct::Discard, at, at + 2),
        Front::List => open::list(alloc, frames, at, at + 1),
        Front::Vector => open::vector(alloc, frames, at, at + 1),
        Front::Map => open::map(alloc, frames, at, at + 1),
        Front::Set => open::set(alloc, frames, at, at + 2),
        Front::Token => token(alloc, bytes, frames, slot, at),
    }
}

/// The text ends here.
fn end(frames: &[Frame], at: usize) -> Result<Progress, EdnFault>
    ensures { (bytes : List ℕ) (slot : Option Edn) → drop at bytes ≡ []
        → LeadsFrom bytes at frames.now result frames.now slot }
{
    if frames.is_empty() {
        Ok(Progress::End)
    } else {
        Err(EdnFault::Cut { at })
    }
}
