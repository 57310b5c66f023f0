//! What the generator says of the last value of the database.
ghost use Rattle.std.specs.Prelude.{◌≡◌, List, IfOk, string_bytes};
ghost use Rattle.std.specs.Option.{option_map};
ghost use Rattle.fb_values.specs.declared.facts.Entry.{Entry};
ghost use Rattle.fb_model.specs.Facts.{facts};
ghost use Rattle.fb_model.specs.Schema.{attribute_named};
ghost use Rattle.fb_schema.specs.Described.{SchemaStands};
ghost use Rattle.fb_db.specs.Seen.{window_of};
ghost use Rattle.fb_run.specs.Summary.{number_name, all_of, long_in, total, summary_line, IsOfAttribute, IsSummary};

use fb_db::Db;
use fb_memory::Memory;
use fb_preds::Selector;
use fb_scan::datoms;
use fb_schema::{Schema, schemas_tell_of_attributes};
use fb_text::Text;
use fb_values::{Datom, Datoms, Order, Probe, Value};
use fb_view::Snapshot;
use std::alloc::Global;

/// The attribute of the generator's numbers.
const NUMBER: &str = "load/num";

/// The line that sums up the numbers of a snapshot.
pub(crate) fn summary_line(alloc: Global, last: &Snapshot) -> Result<String, Memory>
    ensures { IfOk result (λ line. IsSummary last.now.entries (string_bytes line)) }
{
    let attribute = numbers_in(alloc, last)?;
    let mut db = Db::of(last.share()?, Everything);
    let numbers = datoms_of(alloc, &db, attribute)?;
    db.with_history();
    let history = datoms_of(alloc, &db, attribute)?;
    let basis = last.basis();
    let count = numbers.len();
    let sum = total(numbers.as_slice());
    let said = history.len();
    Ok(format!(in alloc;
        "{{:sessions 4 :basis {basis} :numbers {count} :sum {sum} :history {said}}}\n"
    )?)
}

/// The attribute of the numbers, where one has its name.
fn numbers_in(alloc: Global, last: &Snapshot) -> Result<Option<u64>, Memory>
    ensures { IfOk result (λ attribute. attribute ≡ option_map (λ found. found.id)
        (attribute_named (facts last.now.entries) number_name)) }
{
    let name = Text::of(alloc, NUMBER)?;
    Ok(id_in(last.schema(), &name))
}

/// The number of the attribute with this name, where there is one.
fn id_in(schema: &Schema, name: &Text) -> Option<u64>
    ensures { (h : List Entry) → SchemaStands schema.now h → result
        ≡ option_map (λ found. found.id) (attribute_named (facts h) name.now) }
{
    schemas_tell_of_attributes();
    match schema.named(name) {
        Some(attribute) => Some(attribute.id),
        None => None,
    }
}

/// The datoms of an attribute, where there is one.
fn datoms_of(alloc: Global, db: &Db<Everything>, attribute: Option<u64>) -> Result<Datoms, Memory>
    ensures { IfOk result (IsOfAttribute db.now.snapshot.entries (window_of db.now) attribute) }
{
    match attribute {
        Some(a) => datoms(alloc, db, &all_of(a)),
        None => Ok(Datoms::of(Vec::new(alloc))),
    }
}

fn all_of(attribute: u64) -> Probe
    ensures { result ≡ all_of attribute }
{
    Probe {
        order: Order::Aevt,
        e: None,
        a: Some(attribute),
        v: None,
        t: None,
    }
}

/// The sum of the numbers. Other values count for nothing.
fn total(numbers: &[Datom]) -> i128
    ensures { result ≡ total numbers.now }
{
    let mut sum = 0;
    for datom in numbers {
        sum += long_in(&datom.v) as i128;
    }
    sum
}

fn long_in(value: &Value) -> i64
    ensures { result ≡ long_in value.now }
{
    match value {
        Value::Long(n) => *n,
        _ => 0,
    }
}

/// The filter that selects every datom.
#[derive(Drop)]
struct Everything;

impl Selector for Everything {
    ghost use Rattle.std.specs.Prelude.{⊤};

    ghost selects = { λ _ d. ⊤ };

    fn test(&self, _d: &Datom) -> bool {
        true
    }
}
