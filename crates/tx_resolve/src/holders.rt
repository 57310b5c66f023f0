//! What additions give to tempids: the entities that have an identity value already.
ghost use Rattle.std.specs.Prelude.{◌≡◌, slice_set};
ghost use Rattle.tx_resolve.specs.Holders.{slot_at as model_slot_at, has_another as model_has_another, with_addition as model_with_addition, addition_of, with_draft, slots_of};
ghost use Rattle.tx_resolve.specs.Meeting.{drafts_in};

use crate::drafts::Draft;
use crate::whom::EntityRef;

/// What is known of a tempid: the holders of the identity values that it is given, as far as they matter.
#[derive(Clone, Copy)]
pub struct Slot {
    pub first: Option<u64>,
    /// Whether another one differs from the first.
    pub differ: bool,
    /// Whether a form adds to the tempid.
    pub added_to: bool,
}

impl Slot {
    pub const NONE: Slot = Slot {
        first: None,
        differ: false,
        added_to: false,
    };

    /// Whether one of the holders is another than this one.
    pub fn has_another(&self, e: u64) -> bool
        ensures { result ≡ model_has_another self.now e }
    {
        match self.first {
            Some(first) => first != e || self.differ,
            None => false,
        }
    }

    /// With one more addition before them, and the holder that it gives, if there is one.
    fn with_addition(&self, holder: Option<u64>) -> Slot
        ensures { result ≡ model_with_addition holder self.now }
    {
        match holder {
            Some(e) => Slot {
                first: Some(e),
                differ: self.has_another(e),
                added_to: true,
            },
            None => Slot {
                first: self.first,
                differ: self.differ,
                added_to: true,
            },
        }
    }
}

/// The place of the tempid that it adds to, with the holder that it gives it.
pub fn addition(draft: &Draft<'_>) -> Option<(usize, Option<u64>)>
    ensures { result ≡ addition_of draft.now }
{
    match draft {
        Draft::Adds {
            on: EntityRef::New(place),
            holder,
            ..
        } => Some((*place, *holder)),
        _ => None,
    }
}

/// What is known of the tempid with the place.
pub fn slot_at(slots: &[Slot], place: usize) -> Slot
    ensures { result ≡ model_slot_at slots.now place }
{
    match slots.get(place) {
        Some(slot) => *slot,
        None => Slot::NONE,
    }
}

/// Puts down what all forms give. It goes from the last draft to the first, since the first holder counts.
pub fn keep_holders(slots: &mut [Slot], forms: &[Vec<Draft<'_>>])
    ensures { slots.new ≡ slots_of slots.old (drafts_in forms.now) }
{
    let mut i = forms.len();
    while i > 0 {
        i -= 1;
        keep_form(slots, &forms[i]);
    }
}

fn keep_form(slots: &mut [Slot], drafts: &[Draft<'_>])
    ensures { slots.new ≡ slots_of slots.old drafts.now }
{
    let mut i = drafts.len();
    while i > 0 {
        i -= 1;
        keep(slots, &drafts[i]);
    }
}

/// Puts a draft before those that were kept.
fn keep(slots: &mut [Slot], draft: &Draft<'_>)
    ensures { slots.new ≡ with_draft draft.now slots.old }
{
    if let Some((place, holder)) = addition(draft) {
        keep_addition(slots, place, holder);
    }
}

fn keep_addition(slots: &mut [Slot], place: usize, holder: Option<u64>)
    ensures { slots.new ≡ slice_set slots.old place
        (model_with_addition holder (model_slot_at slots.old place)) }
{
    if place < slots.len() {
        slots[place] = slots[place].with_addition(holder);
    }
}
