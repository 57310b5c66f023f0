//! What is open while a form is read: constructs inside one another, each with the whole forms in it.
ghost use Rattle.std.specs.Prelude.{◌≡◌, ℕ, List, [], MatchBool, MatchOption};
ghost use Rattle.edn_model.specs.Faults as faults;
ghost use Rattle.edn_model.specs.Steps.{opens_of, HasRoom};
ghost use Rattle.edn_form.specs.View.{form_of};
ghost use Rattle.edn_duplicates.specs.Inside.{IsDistinctInside};
ghost use Rattle.edn_core.specs.Frames.{open_of, frames_of, IsSoundOpen, ClosesAs, ClosesNothing};

use edn_duplicates::FormCodes;
use edn_form::{Edn, Items, Pairs};
use std::alloc::Global;

/// How many collections and discards may be open at one place.
const MAX_DEPTH: usize = 64;

/// A construct that is open. A set has its members' codes beside them, and a map its keys'.
#[derive(Drop)]
pub(crate) enum Construct {
    List(Vec<Edn>),
    Vector(Vec<Edn>),
    /// After the pairs there may be a key whose value has not come.
    Map(Vec<(Edn, Edn)>, Option<Edn>, FormCodes),
    Set(Vec<Edn>, FormCodes),
    Discard,
    Inst,
    Uuid,
}

/// A construct, and the byte at which it opens.
#[derive(Drop)]
pub(crate) struct Frame {
    pub(crate) construct: Construct,
    pub(crate) at: usize,
}

/// What is open while a form is read. Frames that are kept from one form to the next take their memory once.
#[derive(Drop)]
pub struct Frames {
    pub(crate) open: Vec<Frame>,
}

impl Frames {
    pub fn new(alloc: Global) -> Frames
        ensures { result.open.items ≡ [] }
    {
        let open = Vec::new(alloc);
        Frames { open }
    }
}

/// Whether a form that is no string can't come next, since the innermost construct is a tag.
pub(crate) fn wants_string(frames: &[Frame]) -> bool
    ensures { (bytes : List ℕ)
        → result ≡ faults.wants_string (opens_of (frames_of bytes frames.now)) }
{
    match frames.split_last() {
        None => false,
        Some((innermost, _)) => is_tag(&innermost.construct),
    }
}

/// Whether one more collection or discard may open. Few are ever open, and so they are counted anew: a tag is only in
/// one that counts, or outermost.
pub(crate) fn has_room(frames: &[Frame]) -> bool
    ensures { (bytes : List ℕ) → MatchBool result
        (HasRoom (frames_of bytes frames.now))
        (faults.room (opens_of (frames_of bytes frames.now)) ≡ 0) }
{
    let mut depth: usize = 0;
    for frame in frames.iter() {
        if !is_tag(&frame.construct) {
            depth += 1;
        }
    }
    depth < MAX_DEPTH
}

fn is_tag(construct: &Construct) -> bool
    ensures { result ≡ faults.is_tag (open_of construct.now) }
{
    match construct {
        Construct::Inst => true,
        Construct::Uuid => true,
        _ => false,
    }
}

/// The form that the construct is once this bracket closes it, where it does.
pub(crate) fn closed(construct: Construct, bracket: u8) -> Option<Edn>
    ensures { IsSoundOpen construct → MatchOption result
        (ClosesNothing construct bracket)
        (λ form. ClosesAs construct bracket (form_of form) × IsDistinctInside (form_of form)) }
{
    match construct {
        Construct::List(items) => if bracket == b')' {
            Some(Edn::List(Items::of(items)))
        } else {
            None
        },
        Construct::Vector(items) => if bracket == b']' {
            Some(Edn::Vector(Items::of(items)))
        } else {
            None
        },
        Construct::Map(pairs, None, _) => if bracket == b'}' {
            Some(Edn::Map(Pairs::of(pairs)))
        } else {
            None
        },
        Construct::Set(items, _) => if bracket == b'}' {
            Some(Edn::Set(Items::of(items)))
        } else {
            None
        },
        _ => None,
    }
}
