//! The forms of a transaction, one after another.
ghost use Rattle.std.specs.Prelude.{◌≡◌, [], List, map, filter, IfOk};
ghost use Rattle.std.specs.List.{All};
ghost use Rattle.tx_forms.specs.Parts.{parts_of};
ghost use Rattle.tx_asks.specs.declared.asks.LookupRef.{LookupRef as model_LookupRef};
ghost use Rattle.tx_asks.specs.Asks.{IsTyped};
ghost use Rattle.tx_expand.specs.Known.{HaveOwnNames};
ghost use Rattle.tx_expand.specs.Numbered.{walk_form};
ghost use Rattle.tx_expand.specs.View.{BeginWith};
ghost use Rattle.tx_expand.specs.Faults.{form_faults, ref_faults, ask_read, is_kept};
ghost use Rattle.tx_expand.specs.Walked.{IsWalked};

use crate::faults::NameFaults;
use crate::firsts::{Firsts, NONE, with_faults};
use crate::judge::{Judged, judge_all};
use crate::lookups::judge_lookups;
use crate::raw::{Out, RawAsk};
use crate::walk::form_asks;
use fb_memory::Memory;
use fb_schema::Schema;
use std::alloc::Global;
use tx_asks::{Ask, LookupRef};
use tx_forms::TxForm;

/// What all forms ask, and the first forms with each fault.
#[derive(Drop)]
pub struct Expanded<'a> {
    pub forms: Vec<Vec<Ask<'a>>>,
    pub lookups: Vec<LookupRef<'a>>,
    pub nameless: usize,
    pub firsts: Firsts,
}

/// How far the walk came.
#[derive(Drop)]
pub enum Walked<'a> {
    /// The form at this place is the first with a keyword that names no attribute.
    Unknown(usize),
    Whole(Expanded<'a>),
}

/// How many asks a form has where no value is a collection or a map: one that its map is there, and two for each pair.
fn usual_raws(form: TxForm<'_>) -> usize {
    match form {
        TxForm::List(_) => 1,
        TxForm::Map(pairs) => 1 + 2 * pairs.as_slice().len(),
    }
}

/// An empty list, with room for what the form asks.
fn make_room<'a>(raws: &mut Vec<RawAsk<'a>>, form: TxForm<'_>) -> Result<(), Memory>
    ensures { IfOk result (λ _. raws.new.items ≡ []) }
{
    raws.clear();
    raws.reserve(usual_raws(form))?;
    Ok(())
}

/// What a form asks, judged.
fn expand_form<'a>(
    alloc: Global,
    schema: &'a Schema,
    out: &mut Out<'a>,
    judged: &mut Vec<NameFaults>,
    form: TxForm<'a>,
) -> Result<Judged<'a>, Memory>
    requires own { HaveOwnNames schema.now }
    requires judged { judged.old.items ≡ map (ref_faults schema.now) out.old.lookups.items }
    ensures faults { IfOk result (λ found. found.faults
        ≡ form_faults schema.now (walk_form schema.now out.old.next (parts_of form.entry)).asks) }
    ensures asks { (all : List model_LookupRef) → BeginWith out.new.lookups.items all
        → IfOk result (λ found. map (ask_read all) found.asks.items
        ≡ filter (is_kept schema.now)
        (walk_form schema.now out.old.next (parts_of form.entry)).asks) }
    ensures read { IfOk result (λ found. All (IsTyped schema.now) found.asks.items) }
    ensures judged { IfOk result
        (λ _. judged.new.items ≡ map (ref_faults schema.now) out.new.lookups.items) }
    ensures kept { (all : List model_LookupRef) → BeginWith out.new.lookups.items all
        → IfOk result (λ _. BeginWith out.old.lookups.items all) }
    ensures next { IfOk result
        (λ _. out.new.next ≡ (walk_form schema.now out.old.next (parts_of form.entry)).next) }
{
    make_room(&mut out.raws, form)?;
    form_asks(alloc, schema, out, form)?;
    judge_lookups(schema, out.lookups.as_slice(), judged)?;
    judge_all(alloc, schema, judged, out.raws.as_slice())
}

/// What the forms ask. A keyword that names no attribute ends the walk.
pub fn expand_forms<'a>(
    alloc: Global,
    schema: &'a Schema,
    forms: &[TxForm<'a>],
) -> Result<Walked<'a>, Memory>
    requires { HaveOwnNames schema.now }
    ensures { IfOk result (λ walked. IsWalked schema.now (map parts_of forms.now) walked) }
{
    let mut expanded = Vec::with_capacity(alloc, forms.len())?;
    let mut out = Out {
        raws: Vec::new(alloc),
        lookups: Vec::new(alloc),
        next: 0,
    };
    let mut judged = Vec::new(alloc);
    let mut firsts = NONE;
    let mut place = 0;
    for form in forms {
        let found = expand_form(alloc, schema, &mut out, &mut judged, *form)?;
        if found.faults.unknown {
            return Ok(Walked::Unknown(place));
        }
        firsts = with_faults(firsts, found.faults, place);
        expanded.push(found.asks)?;
        place += 1;
    }
    Ok(Walked::Whole(Expanded {
        forms: expanded,
        lookups: out.lookups,
        nameless: out.next,
        firsts,
    }))
}
