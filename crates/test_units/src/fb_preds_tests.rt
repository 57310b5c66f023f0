//! Filters of callers: the program has only those that are shipped.
use fb_memory::Memory;
use fb_preds::{Kept, PredTable, Selector};
use fb_text::Text;
use fb_values::{Datom, Value};
use std::alloc::Global;
use std::test::Fail;

/// Selects one entity.
#[derive(Drop)]
struct Entity(u64);

impl Selector for Entity {
    ghost use Rattle.std.specs.Prelude.{◌≡◌};

    ghost selects = { λ one d. d.e ≡ one.0 };

    fn test(&self, d: &Datom) -> bool {
        d.e == self.0
    }
}

fn said_of(e: u64, t: u32) -> Datom {
    Datom {
        e,
        a: 9,
        v: Value::Long(0),
        t,
        added: true,
    }
}

/// What the filter of that name answers of a datom of this entity and t, where there is one.
fn answer(
    alloc: Global,
    table: &PredTable,
    name: &str,
    e: u64,
    t: u32,
) -> Result<Option<bool>, Memory> {
    let found = table.find(&Text::of(alloc, name)?);
    Ok(match found {
        Some(place) => Some(table.test(place, &said_of(e, t))),
        None => None,
    })
}

/// Adds this closure as `late`, and as `one` a type of the caller, which selects entity 1.
fn add_both(alloc: Global, table: &mut PredTable, late: Kept) -> Result<(), Memory> {
    table.keep(Text::of(alloc, "late")?, late)?;
    table.add(Text::of(alloc, "one")?, Box::new(alloc, Entity(1))?)
}

const ROWS: &[(&str, u64, u32, Option<bool>)] = &[
    ("one", 1, 5, Some(true)),
    ("one", 2, 5, Some(false)),
    ("late", 2, 6, Some(true)),
    ("late", 2, 5, Some(false)),
    ("two", 1, 6, None),
];

/// Under `late` what was said after t 5 is selected.
#[test]
fn filters_of_callers_are_found_and_asked(rt: HostRuntime) -> Result<(), Fail> {
    let alloc = rt.alloc();
    let late = Kept::new(Box::new(alloc, |d: &Datom| d.t > 5)?);
    let mut table = PredTable::new(alloc);
    add_both(alloc, &mut table, late)?;
    for (name, e, t, want) in ROWS {
        let answer = answer(alloc, &table, name, *e, *t)?;
        assert_eq!(rt; answer, *want, "{name} of {e} at {t}");
    }
    Ok(())
}
