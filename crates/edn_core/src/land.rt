//! What opens, what closes, and where a whole form goes.
ghost use Rattle.std.specs.Prelude.{◌≡◌, ℕ, ◌-◌, ◌<◌, ◌≤◌, true, ◌++◌, ◌∷◌, [], List, Vec, vec_len, IfOk, IfErr, OnErr, Ok, Err, Option, Some, None, length, take, drop};
ghost use Rattle.std.specs.Global.{Global};
ghost use Rattle.edn_model.specs.Bytes.{is_closing};
ghost use Rattle.edn_model.specs.Steps as steps;
ghost use Rattle.edn_model.specs.Steps.{Free, HasRoom};
ghost use Rattle.edn_form.specs.View.{form_of};
ghost use Rattle.edn_form.specs.declared.form.Edn.{Edn};
ghost use Rattle.edn_duplicates.specs.Inside.{IsDistinctInside};
ghost use Rattle.edn_core.specs.Frames.{frames_of, IsSoundOpen, LandsAs, Leads, LeadsFrom, Whole, Opens, RefusedAt};
ghost use Rattle.edn_core.specs.declared.construct.Construct.TheVariants.{Map, Set};
ghost use Rattle.edn_core.specs.declared.fault.EdnFault.{EdnFault};
ghost use Rattle.edn_core.specs.declared.progress.Progress.TheVariants.{Further, Read};

use crate::construct::{Construct, Frame, closed, has_room, wants_string};
use crate::fault::EdnFault;
use crate::progress::Progress;
use edn_duplicates::FormCodes;
use edn_form::Edn;
use std::alloc::Global;

/// A form from one place up to the next falls to the innermost construct, or, where nothing is open, is what was to be
/// read, and goes into the slot. What holds forms grows where it is, and is not moved; each kind in a call of its own, so
/// that none makes room for another.
pub(crate) fn put(
    alloc: Global,
    frames: &mut Vec<Frame>,
    slot: &mut Option<Edn>,
    form: Edn,
    at: usize,
    next: usize,
) -> Result<Progress, EdnFault>
    ensures { (bytes : List ℕ) (start here : ℕ)
        → Whole bytes start here at next frames.old.items (form_of form)
        → Leads bytes start here
        (steps.land (frames_of bytes frames.old.items) (form_of form) (drop at bytes)
        (drop next bytes))
        result frames.new.items slot.new }
{
    let Some(innermost) = frames.last_mut() else {
        return whole(slot, form, next);
    };
    match &mut innermost.construct {
        Construct::List(items) => grow(items, form, next),
        Construct::Vector(items) => grow(items, form, next),
        Construct::Map(pairs, key, said) => entry(alloc, pairs, key, said, form, at, next),
        Construct::Set(items, said) => member(alloc, items, said, form, at, next),
        // A discard has its form, and is over; so would be a tag.
        Construct::Discard => over(frames, form, next),
        Construct::Inst => over(frames, form, next),
        Construct::Uuid => over(frames, form, next),
    }
}

/// One more item is added at the end.
pub(crate) fn grow<T: Drop>(items: &mut Vec<T>, item: T, next: usize) -> Result<Progress, EdnFault>
    ensures ok { IfOk result
        (λ p. (p ≡ Further next) × (items.new.items ≡ items.old.items ++ item ∷ [])) }
    ensures err { OnErr result (result ≡ Err EdnFault.Memory) }
{
    match items.push(item) {
        Ok(()) => Ok(Progress::Further(next)),
        Err(_) => Err(EdnFault::Memory),
    }
}

/// A form in a map: it is the value of the key that waits for one, or the next key.
fn entry(
    alloc: Global,
    pairs: &mut Vec<(Edn, Edn)>,
    waiting: &mut Option<Edn>,
    said: &mut FormCodes,
    form: Edn,
    at: usize,
    next: usize,
) -> Result<Progress, EdnFault>
    ensures { IsSoundOpen (Map pairs.old waiting.old said.old) → IsDistinctInside (form_of form)
        → LandsAs (Map pairs.old waiting.old said.old) (form_of form) at next result
        (Map pairs.new waiting.new said.new) }
{
    match waiting.take() {
        Some(key) => grow(pairs, (key, form), next),
        None => key(alloc, waiting, said, form, at, next),
    }
}

/// Adds a key to a map in which none waits for its value, unless it was there before.
fn key(
    alloc: Global,
    waiting: &mut Option<Edn>,
    said: &mut FormCodes,
    form: Edn,
    at: usize,
    next: usize,
) -> Result<Progress, EdnFault>
    ensures { (pairs : Vec (Edn × Edn) Global) → IsSoundOpen (Map pairs None said.old)
        → IsDistinctInside (form_of form)
        → LandsAs (Map pairs None said.old) (form_of form) at next result
        (Map pairs waiting.new said.new) }
{
    if said.insert_form(alloc, &form)? {
        *waiting = Some(form);
        Ok(Progress::Further(next))
    } else {
        Err(EdnFault::Bad { at })
    }
}

/// Adds a member to a set, unless it was there before.
fn member(
    alloc: Global,
    items: &mut Vec<Edn>,
    said: &mut FormCodes,
    form: Edn,
    at: usize,
    next: usize,
) -> Result<Progress, EdnFault>
    ensures { IsSoundOpen (Set items.old said.old) → IsDistinctInside (form_of form)
        → LandsAs (Set items.old said.old) (form_of form) at next result (Set items.new said.new) }
{
    if said.insert_form(alloc, &form)? {
        grow(items, form, next)
    } else {
        Err(EdnFault::Bad { at })
    }
}

/// The innermost construct is over, and the form goes.
fn over(frames: &mut Vec<Frame>, form: Edn, next: usize) -> Result<Progress, EdnFault>
    ensures { (result ≡ Ok (Further next))
        × (frames.new.items ≡ take (vec_len frames.old - 1) frames.old.items) }
{
    drop(form);
    drop(frames.pop());
    Ok(Progress::Further(next))
}

/// The form is what was to be read.
fn whole(slot: &mut Option<Edn>, form: Edn, next: usize) -> Result<Progress, EdnFault>
    ensures { (result ≡ Ok (Read next)) × (slot.new ≡ Some form) }
{
    *slot = Some(form);
    Ok(Progress::Read(next))
}

/// A bracket closes the innermost construct, or nothing.
pub(crate) fn close(
    alloc: Global,
    frames: &mut Vec<Frame>,
    slot: &mut Option<Edn>,
    bracket: u8,
    at: usize,
    next: usize,
) -> Result<Progress, EdnFault>
    ensures { (bytes : List ℕ) → at < next → next ≤ length bytes
        → drop at bytes ≡ bracket ∷ drop next bytes → is_closing bracket ≡ true
        → LeadsFrom bytes at frames.old.items result frames.new.items slot.new }
{
    let Some(innermost) = frames.pop() else {
        return Err(EdnFault::Bad { at });
    };
    match closed(innermost.construct, bracket) {
        Some(form) => put(alloc, frames, slot, form, innermost.at, next),
        None => Err(EdnFault::Bad { at }),
    }
}

/// That a collection may open at a place: no tag wants a string there, and there is room.
pub(crate) fn may_open(frames: &[Frame], at: usize) -> Result<(), EdnFault>
    ensures free { (bytes : List ℕ)
        → IfOk result
        (λ _. Free (frames_of bytes frames.now) × HasRoom (frames_of bytes frames.now)) }
    ensures refused { (bytes : List ℕ) → IfErr result (RefusedAt at (frames_of bytes frames.now)) }
{
    if wants_string(frames) {
        return Err(EdnFault::Bad { at });
    }
    if !has_room(frames) {
        return Err(EdnFault::Deep { at });
    }
    Ok(())
}

/// A discard opens, where there is room.
pub(crate) fn begin(
    frames: &mut Vec<Frame>,
    construct: Construct,
    at: usize,
    next: usize,
) -> Result<Progress, EdnFault>
    ensures { (bytes : List ℕ) (slot : Option Edn) → Opens bytes frames.old.items construct at next
        → LeadsFrom bytes at frames.old.items result frames.new.items slot }
{
    if !has_room(frames.as_slice()) {
        return Err(EdnFault::Deep { at });
    }
    grow(frames, Frame { construct, at }, next)
}
