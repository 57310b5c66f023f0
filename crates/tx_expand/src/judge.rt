//! The asks of a form, judged: those with which nothing is wrong, and what is wrong with the others.
ghost use Rattle.std.specs.Prelude.{◌≡◌, ◌++◌, ◌∷◌, [], List, map, filter, IfOk};
ghost use Rattle.std.specs.List.{All};
ghost use Rattle.edn_form.specs.View.{form_of};
ghost use Rattle.fb_values.specs.declared.facts.Datom.{Datom};
ghost use Rattle.tx_model.specs.Asks as asks;
ghost use Rattle.tx_model.specs.Asks.{Ask as model_Ask};
ghost use Rattle.tx_model.specs.NameRules as model;
ghost use Rattle.tx_asks.specs.declared.asks.LookupRef.{LookupRef as model_LookupRef};
ghost use Rattle.tx_asks.specs.Asks.{IsTyped};
ghost use Rattle.tx_expand.specs.View.{word_of, model_part, model_ask};
ghost use Rattle.tx_expand.specs.Known.{IsLookedUp, IsAskLookedUp};
ghost use Rattle.tx_expand.specs.Faults as faults;
ghost use Rattle.tx_expand.specs.Faults.{ask_read, is_kept, Settles};

use crate::faults::{Faults, NameFaults};
use crate::lookups::name_faults;
use crate::raw::{Attr, RawAsk, RawPart};
use crate::settle::{Settled, settle};
use edn_form::Edn;
use edn_values::is_reserved;
use fb_memory::Memory;
use fb_numbers::{IDENT, TX_INSTANT};
use fb_schema::Schema;
use std::alloc::Global;
use tx_asks::Ask;

/// The asks of a form with which nothing is wrong, and what is wrong with any of its asks.
#[derive(Drop)]
pub struct Judged<'a> {
    pub asks: Vec<Ask<'a>>,
    pub faults: Faults,
}

// ---- lookup refs

#[tactic(auto, using(crate::proofs::LookupRefs::either_none))]
fn part_faults(judged: &[NameFaults], part: RawPart<'_>) -> NameFaults
    ensures { (facts : List Datom) (all : List model_LookupRef)
        → judged.now ≡ map (faults.ref_faults facts) all
        → result ≡ faults.names_faults facts (asks.name_of_part (model_part all part.entry)) }
{
    match part {
        RawPart::Plain(_) => NameFaults::NONE,
        RawPart::Entity(name) => name_faults(judged, name),
    }
}

/// What is wrong with the lookup refs in the names of the ask.
#[tactic(auto, using(crate::proofs::LookupRefs::either_none, crate::proofs::LookupRefs::faults_behind))]
fn names_faults(judged: &[NameFaults], raw: &RawAsk<'_>) -> NameFaults
    ensures { (facts : List Datom) (all : List model_LookupRef)
        → judged.now ≡ map (faults.ref_faults facts) all
        → result ≡ faults.names_faults facts (asks.names_of (model_ask all raw.now)) }
{
    match raw {
        RawAsk::Adds(on, _, part) => name_faults(judged, *on).or(part_faults(judged, *part)),
        RawAsk::Retracts(on, _, part) => name_faults(judged, *on).or(part_faults(judged, *part)),
        RawAsk::Compares(on, _, old, new) => {
            let values = part_faults(judged, *old).or(part_faults(judged, *new));
            name_faults(judged, *on).or(values)
        }
        RawAsk::RetractsAll(on, _) => name_faults(judged, *on),
        RawAsk::RetractsEntity(on) => name_faults(judged, *on),
        RawAsk::Meets(on) => name_faults(judged, *on),
        RawAsk::Mentions(_) => NameFaults::NONE,
        RawAsk::LacksId => NameFaults::NONE,
    }
}

// ---- what the database keeps for itself

fn is_protected(_schema: &Schema, attr: &Attr<'_>) -> bool
    requires { IsLookedUp _schema.now attr.now }
    ensures { result ≡ model.is_protected _schema.now (word_of attr.now) }
{
    match attr {
        Attr::Known(attribute) => attribute.id == TX_INSTANT,
        Attr::Unknown(_) => false,
    }
}

fn is_ident(_schema: &Schema, attr: &Attr<'_>) -> bool
    requires { IsLookedUp _schema.now attr.now }
    ensures { result ≡ model.is_ident _schema.now (word_of attr.now) }
{
    match attr {
        Attr::Known(attribute) => attribute.id == IDENT,
        Attr::Unknown(_) => false,
    }
}

fn is_reserved_form(f: &Edn) -> bool
    ensures { result ≡ model.is_reserved_part (asks.plain (form_of f.now)) }
{
    match f {
        Edn::Key(k) => is_reserved(k.as_str()),
        _ => false,
    }
}

fn is_reserved_part(part: RawPart<'_>) -> bool
    ensures { (all : List model_LookupRef)
        → result ≡ model.is_reserved_part (model_part all part.entry) }
{
    match part {
        RawPart::Plain(f) => is_reserved_form(f),
        RawPart::Entity(_) => false,
    }
}

/// Whether the ask is of the attribute that the database sets, or adds an ident that the database keeps for itself.
fn is_of_protected(schema: &Schema, raw: &RawAsk<'_>) -> bool
    requires { IsAskLookedUp schema.now raw.now }
    ensures { (all : List model_LookupRef)
        → result ≡ faults.is_of_protected schema.now (model_ask all raw.now) }
{
    match raw {
        RawAsk::Adds(_, attr, part) => {
            is_protected(schema, attr) || (is_ident(schema, attr) && is_reserved_part(*part))
        }
        RawAsk::Compares(_, attr, _, new) => {
            is_protected(schema, attr) || (is_ident(schema, attr) && is_reserved_part(*new))
        }
        RawAsk::Retracts(_, attr, _) => is_protected(schema, attr),
        RawAsk::RetractsAll(_, attr) => is_protected(schema, attr),
        RawAsk::Mentions(attr) => is_protected(schema, attr),
        _ => false,
    }
}

// ---- one ask

fn is_unknown(settled: &Settled<'_>) -> bool
    ensures { (facts : List Datom) (all : List model_LookupRef) (ask : model_Ask)
        → Settles facts all ask settled.now → result ≡ faults.is_of_unknown facts ask }
{
    match settled {
        Settled::Unknown => true,
        Settled::Stands(_) => false,
        Settled::Wrong => false,
        Settled::Mere => false,
    }
}

fn is_wrong(settled: &Settled<'_>) -> bool
    ensures { (facts : List Datom) (all : List model_LookupRef) (ask : model_Ask)
        → Settles facts all ask settled.now → result ≡ faults.has_wrong_value facts ask }
{
    match settled {
        Settled::Wrong => true,
        Settled::Stands(_) => false,
        Settled::Unknown => false,
        Settled::Mere => false,
    }
}

fn is_lacking(raw: &RawAsk<'_>) -> bool
    ensures { (all : List model_LookupRef) → result ≡ model.is_lacking (model_ask all raw.now) }
{
    match raw {
        RawAsk::LacksId => true,
        _ => false,
    }
}

/// Keeps an ask with which nothing is wrong.
fn keep<'a>(settled: Settled<'a>, asks: &mut Vec<Ask<'a>>) -> Result<(), Memory>
    ensures asks { (facts : List Datom) (all : List model_LookupRef) (ask : model_Ask)
        → Settles facts all ask settled.entry
        → IfOk result (λ _. map (ask_read all) asks.new.items
        ≡ map (ask_read all) asks.old.items ++ filter (is_kept facts) (ask ∷ [])) }
    ensures read { (facts : List Datom) (all : List model_LookupRef) (ask : model_Ask)
        → Settles facts all ask settled.entry
        → All (IsTyped facts) asks.old.items
        → IfOk result (λ _. All (IsTyped facts) asks.new.items) }
{
    match settled {
        Settled::Stands(ask) => {
            asks.push(ask)?;
            Ok(())
        }
        Settled::Wrong => Ok(()),
        Settled::Unknown => Ok(()),
        Settled::Mere => Ok(()),
    }
}

fn judge<'a>(
    alloc: Global,
    schema: &Schema,
    judged: &[NameFaults],
    raw: &RawAsk<'a>,
    asks: &mut Vec<Ask<'a>>,
) -> Result<Faults, Memory>
    requires known { IsAskLookedUp schema.now raw.now }
    requires read { All (IsTyped schema.now) asks.old.items }
    ensures faults { (all : List model_LookupRef)
        → judged.now ≡ map (faults.ref_faults schema.now) all
        → IfOk result (λ found. found ≡ faults.ask_faults schema.now (model_ask all raw.now)) }
    ensures asks { (all : List model_LookupRef) → IfOk result
        (λ _. map (ask_read all) asks.new.items
        ≡ map (ask_read all) asks.old.items
        ++ filter (is_kept schema.now) (model_ask all raw.now ∷ [])) }
    ensures read { IfOk result (λ _. All (IsTyped schema.now) asks.new.items) }
{
    let names = names_faults(judged, raw);
    let settled = settle(alloc, schema, raw)?;
    let unknown = is_unknown(&settled);
    let wrong = is_wrong(&settled);
    keep(settled, asks)?;
    Ok(Faults {
        unknown: unknown || names.unknown,
        protected: is_of_protected(schema, raw),
        wrong: wrong || names.wrong,
        not_unique: names.not_unique,
        lacking: is_lacking(raw),
    })
}

/// The asks of a form, judged, where these are the faults of the transaction's lookup refs so far. There is room for half of
/// what is judged, and one more: of a pair only one ask is kept, since the other says that its attribute is mentioned.
#[tactic(auto, using(crate::proofs::Together::either_of_none, crate::proofs::Together::faults_then))]
pub fn judge_all<'a>(
    alloc: Global,
    schema: &Schema,
    judged: &[NameFaults],
    raws: &[RawAsk<'a>],
) -> Result<Judged<'a>, Memory>
    requires known { All (IsAskLookedUp schema.now) raws.now }
    ensures faults { (all : List model_LookupRef)
        → judged.now ≡ map (faults.ref_faults schema.now) all
        → IfOk result
        (λ form. form.faults ≡ faults.form_faults schema.now (map (model_ask all) raws.now)) }
    ensures asks { (all : List model_LookupRef) → IfOk result
        (λ form. map (ask_read all) form.asks.items
        ≡ filter (is_kept schema.now) (map (model_ask all) raws.now)) }
    ensures read { IfOk result (λ form. All (IsTyped schema.now) form.asks.items) }
{
    let mut asks = Vec::with_capacity(alloc, raws.len() / 2 + 1)?;
    let mut faults = Faults::NONE;
    for raw in raws {
        faults = faults.or(judge(alloc, schema, judged, raw, &mut asks)?);
    }
    Ok(Judged { asks, faults })
}
