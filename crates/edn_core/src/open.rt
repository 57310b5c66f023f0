//! Which collection opens here. Each in a call of its own, so that a step over a token makes no room for what opens.
ghost use Rattle.std.specs.Prelude.{◌≡◌, ℕ, ◌+◌, ◌∷◌, [], List, Option, drop, IfOk};
ghost use Rattle.edn_model.specs.Bytes.{hash, open_paren, open_bracket, open_brace};
ghost use Rattle.edn_form.specs.declared.form.Edn.{Edn};
ghost use Rattle.edn_core.specs.Frames.{LeadsFrom};

use crate::construct::{Construct, Frame};
use crate::fault::EdnFault;
use crate::land::{grow, may_open};
use crate::progress::Progress;
use edn_duplicates::FormCodes;
use edn_form::Edn;
use fb_memory::Memory;
use std::alloc::Global;

/// The pairs of a map for which there is room from the beginning: most maps have no more.
const PAIRS: usize = 8;

pub(crate) fn list(
    alloc: Global,
    frames: &mut Vec<Frame>,
    at: usize,
    next: usize,
) -> Result<Progress, EdnFault>
    ensures { (bytes : List ℕ) (slot : Option Edn) → next ≡ at + 1
        → drop at bytes ≡ open_paren ∷ drop 1 (drop at bytes)
        → LeadsFrom bytes at frames.old.items result frames.new.items slot }
{
    may_open(frames.as_slice(), at)?;
    let construct = Construct::List(Vec::new(alloc));
    grow(frames, Frame { construct, at }, next)
}

pub(crate) fn vector(
    alloc: Global,
    frames: &mut Vec<Frame>,
    at: usize,
    next: usize,
) -> Result<Progress, EdnFault>
    ensures { (bytes : List ℕ) (slot : Option Edn) → next ≡ at + 1
        → drop at bytes ≡ open_bracket ∷ drop 1 (drop at bytes)
        → LeadsFrom bytes at frames.old.items result frames.new.items slot }
{
    may_open(frames.as_slice(), at)?;
    let construct = Construct::Vector(Vec::new(alloc));
    grow(frames, Frame { construct, at }, next)
}

pub(crate) fn map(
    alloc: Global,
    frames: &mut Vec<Frame>,
    at: usize,
    next: usize,
) -> Result<Progress, EdnFault>
    ensures { (bytes : List ℕ) (slot : Option Edn) → next ≡ at + 1
        → drop at bytes ≡ open_brace ∷ drop 1 (drop at bytes)
        → LeadsFrom bytes at frames.old.items result frames.new.items slot }
{
    may_open(frames.as_slice(), at)?;
    let pairs = no_pairs(alloc)?;
    let construct = Construct::Map(pairs, None, FormCodes::new(alloc));
    grow(frames, Frame { construct, at }, next)
}

fn no_pairs(alloc: Global) -> Result<Vec<(Edn, Edn)>, Memory>
    ensures { IfOk result (λ pairs. pairs.items ≡ []) }
{
    Ok(Vec::with_capacity(alloc, PAIRS)?)
}

pub(crate) fn set(
    alloc: Global,
    frames: &mut Vec<Frame>,
    at: usize,
    next: usize,
) -> Result<Progress, EdnFault>
    ensures { (bytes : List ℕ) (slot : Option Edn) → next ≡ at + 2
        → drop at bytes ≡ hash ∷ open_brace ∷ drop 2 (drop at bytes)
        → LeadsFrom bytes at frames.old.items result frames.new.items slot }
{
    may_open(frames.as_slice(), at)?;
    let construct = Construct::Set(Vec::new(alloc), FormCodes::new(alloc));
    grow(frames, Frame { construct, at }, next)
}
