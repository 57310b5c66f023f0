//! What becomes of an ask: its values are read, or something is wrong with it.
ghost use Rattle.std.specs.Prelude.{◌≡◌, List, true, false, Some, option_map, MatchOption, IfOk};
ghost use Rattle.edn_form.specs.View.{form_of};
ghost use Rattle.fb_schema.specs.Parts.{model_attribute};
ghost use Rattle.tx_model.specs.Asks as asks;
ghost use Rattle.tx_model.specs.NameRules as model;
ghost use Rattle.tx_asks.specs.declared.asks.LookupRef.{LookupRef as model_LookupRef};
ghost use Rattle.tx_asks.specs.declared.asks.Ask.TheVariants.{Compares};
ghost use Rattle.tx_asks.specs.Asks.{IsTypedPart, IsTypedOldPart};
ghost use Rattle.tx_expand.specs.declared.settle.Settled.TheVariants.{Stands};
ghost use Rattle.tx_expand.specs.View.{model_name, word_of, model_part, model_ask};
ghost use Rattle.tx_expand.specs.Known.{IsLookedUp, IsAskLookedUp};
ghost use Rattle.tx_expand.specs.Faults.{part_read, old_part_read, Settles};

use crate::lookups::plain_value;
use crate::raw::{Attr, RawAsk, RawPart};
use edn_form::Edn;
use fb_memory::Memory;
use fb_schema::{Attribute, Schema};
use std::alloc::Global;
use tx_asks::{Ask, Boxed, Comparison, Name, Operand};

/// What becomes of an ask.
#[derive(Drop)]
pub enum Settled<'a> {
    Stands(Ask<'a>),
    /// A value is not of its attribute's type.
    Wrong,
    /// No attribute has the name.
    Unknown,
    /// It asks for no change, and all is well.
    Mere,
}

/// The part with its value read, if it is one of the attribute.
fn read_part<'a>(attribute: &Attribute, part: RawPart<'a>) -> Result<Option<Operand<'a>>, Memory>
    ensures { (all : List model_LookupRef) → IfOk result (λ read. MatchOption read
        (model.is_wrong_part (model_attribute attribute.now) (model_part all part.entry) ≡ true)
        (λ r. (model.is_wrong_part (model_attribute attribute.now) (model_part all part.entry) ≡ false)
        × (part_read all r ≡ model_part all part.entry)
        × IsTypedPart attribute.now r)) }
{
    match part {
        RawPart::Plain(f) => match plain_value(attribute, f)? {
            Some(v) => Ok(Some(Operand::Plain(f, v))),
            None => Ok(None),
        },
        RawPart::Entity(name) => {
            if !attribute.is_ref() {
                return Ok(None);
            }
            Ok(Some(Operand::Entity(name)))
        }
    }
}

/// The old value of a cas, with `None` for nil.
fn read_old<'a>(
    attribute: &Attribute,
    part: RawPart<'a>,
) -> Result<Option<Option<Operand<'a>>>, Memory>
    ensures { (all : List model_LookupRef) → IfOk result (λ read. MatchOption read
        (model.is_wrong_old_part (model_attribute attribute.now) (model_part all part.entry) ≡ true)
        (λ r. (model.is_wrong_old_part (model_attribute attribute.now) (model_part all part.entry) ≡ false)
        × (old_part_read all r ≡ model_part all part.entry)
        × IsTypedOldPart attribute.now r)) }
{
    match part {
        RawPart::Plain(f) => read_old_form(attribute, f),
        RawPart::Entity(_) => Ok(known_old(read_part(attribute, part)?)),
    }
}

/// A part as an old value that there is.
fn known_old<'a>(part: Option<Operand<'a>>) -> Option<Option<Operand<'a>>>
    ensures { result ≡ option_map Some part.entry }
{
    match part {
        Some(part) => Some(Some(part)),
        None => None,
    }
}

fn read_old_form<'a>(
    attribute: &Attribute,
    f: &'a Edn,
) -> Result<Option<Option<Operand<'a>>>, Memory>
    ensures { (all : List model_LookupRef) → IfOk result (λ read. MatchOption read
        (model.is_wrong_old_part (model_attribute attribute.now) (asks.plain (form_of f.now)) ≡ true)
        (λ r. (model.is_wrong_old_part (model_attribute attribute.now) (asks.plain (form_of f.now))
        ≡ false)
        × (old_part_read all r ≡ asks.plain (form_of f.now))
        × IsTypedOldPart attribute.now r)) }
{
    match f {
        Edn::Nil => Ok(Some(None)),
        _ => match plain_value(attribute, f)? {
            Some(v) => Ok(Some(Some(Operand::Plain(f, v)))),
            None => Ok(None),
        },
    }
}

fn settle_addition<'a>(
    _schema: &Schema,
    on: Name<'a>,
    attr: &Attr<'a>,
    part: RawPart<'a>,
) -> Result<Settled<'a>, Memory>
    requires { IsLookedUp _schema.now attr.now }
    ensures { (all : List model_LookupRef) → IfOk result (λ settled. Settles _schema.now all
        (asks.adds (model_name all on.entry) (word_of attr.now) (model_part all part.entry)) settled) }
{
    let Attr::Known(attribute) = attr else {
        return Ok(Settled::Unknown);
    };
    match read_part(attribute, part)? {
        Some(part) => Ok(Settled::Stands(Ask::Adds {
            on,
            attribute,
            part,
        })),
        None => Ok(Settled::Wrong),
    }
}

fn settle_retraction<'a>(
    _schema: &Schema,
    on: Name<'a>,
    attr: &Attr<'a>,
    part: RawPart<'a>,
) -> Result<Settled<'a>, Memory>
    requires { IsLookedUp _schema.now attr.now }
    ensures { (all : List model_LookupRef) → IfOk result (λ settled. Settles _schema.now all
        (asks.retracts (model_name all on.entry) (word_of attr.now) (model_part all part.entry)) settled) }
{
    let Attr::Known(attribute) = attr else {
        return Ok(Settled::Unknown);
    };
    match read_part(attribute, part)? {
        Some(part) => Ok(Settled::Stands(Ask::Retracts {
            on,
            attribute,
            part,
        })),
        None => Ok(Settled::Wrong),
    }
}

fn settle_comparison<'a>(
    alloc: Global,
    _schema: &Schema,
    on: Name<'a>,
    attr: &Attr<'a>,
    old: RawPart<'a>,
    new: RawPart<'a>,
) -> Result<Settled<'a>, Memory>
    requires { IsLookedUp _schema.now attr.now }
    ensures { (all : List model_LookupRef) → IfOk result (λ settled. Settles _schema.now all
        (asks.compares (model_name all on.entry) (word_of attr.now) (model_part all old.entry)
        (model_part all new.entry))
        settled) }
{
    let Attr::Known(attribute) = attr else {
        return Ok(Settled::Unknown);
    };
    let Some(old) = read_old(attribute, old)? else {
        return Ok(Settled::Wrong);
    };
    match read_part(attribute, new)? {
        Some(new) => settled_comparison(
            alloc,
            Comparison {
                on,
                attribute,
                old,
                new,
            },
        ),
        None => Ok(Settled::Wrong),
    }
}

fn settled_comparison<'a>(alloc: Global, comparison: Comparison<'a>) -> Result<Settled<'a>, Memory>
    ensures { IfOk result (λ settled. settled ≡ Stands (Compares comparison.entry)) }
{
    Ok(Settled::Stands(Ask::Compares(Boxed::new(alloc, comparison)?)))
}

/// What becomes of the ask.
pub fn settle<'a>(alloc: Global, schema: &Schema, raw: &RawAsk<'a>) -> Result<Settled<'a>, Memory>
    requires { IsAskLookedUp schema.now raw.now }
    ensures { (all : List model_LookupRef)
        → IfOk result (λ settled. Settles schema.now all (model_ask all raw.now) settled) }
{
    match raw {
        RawAsk::Adds(on, attr, part) => settle_addition(schema, *on, attr, *part),
        RawAsk::Retracts(on, attr, part) => settle_retraction(schema, *on, attr, *part),
        RawAsk::Compares(on, attr, old, new) => {
            settle_comparison(alloc, schema, *on, attr, *old, *new)
        }
        RawAsk::RetractsAll(on, attr) => Ok(match attr {
            Attr::Known(attribute) => {
                let on = *on;
                Settled::Stands(Ask::RetractsAll { on, attribute })
            }
            Attr::Unknown(_) => Settled::Unknown,
        }),
        RawAsk::Mentions(attr) => Ok(match attr {
            Attr::Known(_) => Settled::Mere,
            Attr::Unknown(_) => Settled::Unknown,
        }),
        RawAsk::RetractsEntity(on) => Ok(Settled::Stands(Ask::RetractsEntity { on: *on })),
        RawAsk::Meets(on) => Ok(Settled::Stands(Ask::Meets { on: *on })),
        RawAsk::LacksId => Ok(Settled::Mere),
    }
}
