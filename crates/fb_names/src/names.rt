//! The entity that a form names in a read. What the names mean depends on the whole history, and what they find on the view.
ghost use Rattle.std.specs.Prelude.{◌≡◌, List, true, IfOk, Some};
ghost use Rattle.std.specs.Option.{option_map, option_map_or};
ghost use Rattle.edn_form.specs.View.{form_of, forms_of, members};
ghost use Rattle.edn_model.specs.Form as edn;
ghost use Rattle.fb_values.specs.declared.facts.Entry.{Entry};
ghost use Rattle.fb_values.specs.declared.facts.Value.TheVariants.{Keyword};
ghost use Rattle.fb_values.specs.declared.indexes.Order.TheVariants.{Avet};
ghost use Rattle.fb_numbers.specs.Numbers.{ident as ident_attribute};
ghost use Rattle.fb_model.specs.Facts.{facts};
ghost use Rattle.fb_model.specs.Schema.{covers};
ghost use Rattle.fb_model.specs.Lawful.{IsLawful};
ghost use Rattle.fb_schema.specs.Described.{SchemaStands};
ghost use Rattle.tx_model.specs.Asks.{lookup_in as model_lookup_in};
ghost use Rattle.tx_model.specs.Values.{value_in};
ghost use Rattle.fb_db.specs.Seen.{window_of};
ghost use Rattle.read_model.specs.Finding.{IsHolder};
ghost use Rattle.read_model.specs.Names.{IsEntityOf, IsFound, lookup_of};
ghost use Rattle.fb_names.specs.Names.{number_in, id_of};

use edn_form::{Edn, Items};
use edn_values::{as_value, forms_of_other_types};
use fb_db::Db;
use fb_memory::Memory;
use fb_model::attributes_stay_attributes;
use fb_numbers::{IDENT, TYPE_REF};
use fb_preds::Selector;
use fb_scan::first_present;
use fb_schema::{Schema, schemas_tell_of_attributes};
use fb_text::Text;
use fb_values::{Order, Probe, Value};
use tx_forms::lookup_in;

/// A unique attribute and a value of its type.
#[derive(Drop)]
pub struct Lookup {
    pub attribute: u64,
    pub value: Value,
}

/// The entity that the form names in the view: none where it is not a name, or finds no entity. A number names itself.
pub fn entid<S: Selector>(db: &Db<S>, form: &Edn) -> Result<Option<u64>, Memory>
    ensures { IfOk result (λ e. IsEntityOf db.now.snapshot.entries (window_of db.now)
        (S.selects db.now.filter) (form_of form.now) e) }
{
    match form {
        Edn::Int(n) => Ok(numbered(*n)),
        Edn::Key(name) => named(db, name),
        Edn::Vector(items) => looked_up(db, items),
        _ => Ok(None),
    }
}

fn numbered(n: i64) -> Option<u64>
    ensures { result ≡ number_in n }
{
    u64::try_from(n).ok()
}

fn named<S: Selector>(db: &Db<S>, name: &Text) -> Result<Option<u64>, Memory>
    ensures { IfOk result (λ e. IsHolder db.now.snapshot.entries (window_of db.now)
        (S.selects db.now.filter) ident_attribute (Keyword name.now) e) }
{
    idents_are_indexed();
    let _ = db.snapshot.entries();
    Ok(holder(db, IDENT, Value::Keyword(name.copy()?)))
}

/// AVET holds the idents of every lawful history: nothing changes the attribute.
fn idents_are_indexed()
    ensures { (h : List Entry) → IsLawful h → covers (facts h) Avet ident_attribute ≡ true }
{
    attributes_stay_attributes();
}

fn looked_up<S: Selector>(db: &Db<S>, items: &Items) -> Result<Option<u64>, Memory>
    ensures { IfOk result (λ e. IsFound db.now.snapshot.entries (window_of db.now)
        (S.selects db.now.filter)
        (lookup_of (facts db.now.snapshot.entries)
        (model_lookup_in (edn.forms (forms_of (members items.now)))))
        e) }
{
    let Some((keyword, value)) = lookup_in(items) else {
        return Ok(None);
    };
    match unique_value(db.snapshot.schema(), keyword, value)? {
        Some(found) => Ok(holder(db, found.attribute, found.value)),
        None => Ok(None),
    }
}

/// The unique attribute that the keyword names, and the value that the form is under it.
fn unique_value(schema: &Schema, keyword: &Text, form: &Edn) -> Result<Option<Lookup>, Memory>
    ensures lookup { (h : List Entry) → SchemaStands schema.now h
        → IfOk result (λ found. option_map id_of found
        ≡ lookup_of (facts h) (Some (keyword.now, form_of form.now))) }
    ensures held { (h : List Entry) → SchemaStands schema.now h
        → IfOk result
        (λ found. option_map_or (λ l. covers (facts h) Avet l.attribute) found true ≡ true) }
{
    schemas_tell_of_attributes();
    let Some(attribute) = schema.named(keyword) else {
        return Ok(None);
    };
    if !attribute.is_unique() {
        return Ok(None);
    }
    Ok(match plain_value(attribute.kind, form)? {
        Some(value) => Some(Lookup {
            attribute: attribute.id,
            value,
        }),
        None => None,
    })
}

/// The value that the form is by itself, which no entity is.
pub fn plain_value(kind: u64, form: &Edn) -> Result<Option<Value>, Memory>
    ensures { IfOk result (λ v. v ≡ value_in kind (form_of form.now)) }
{
    forms_of_other_types();
    if kind == TYPE_REF {
        return Ok(None);
    }
    as_value(kind, form)
}

/// The least entity that has the value. AVET has the value's datoms by their entities, so it is that of the first one.
fn holder<S: Selector>(db: &Db<S>, a: u64, v: Value) -> Option<u64>
    requires { covers (facts db.now.snapshot.entries) Avet a ≡ true }
    ensures { IsHolder db.now.snapshot.entries (window_of db.now) (S.selects db.now.filter) a v
        result }
{
    let probe = Probe {
        order: Order::Avet,
        e: None,
        a: Some(a),
        v: Some(v),
        t: None,
    };
    match first_present(db, &probe) {
        Some(d) => Some(d.e),
        None => None,
    }
}
