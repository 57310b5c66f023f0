//! Small transactions, drawn from a seed: most of them sensible, some with a fault, so that each rule on forms is met.
use crate::dice::Dice;
use anyhow::Result;
use std::alloc::Global;

/// Attributes of each kind. Their entities are 17592186044417 to 17592186044424.
pub const SCHEMA: &str = "[
    {:db/ident :g/one :db/valueType :db.type/long :db/cardinality :db.cardinality/one}
    {:db/ident :g/many :db/valueType :db.type/long :db/cardinality :db.cardinality/many}
    {:db/ident :g/id :db/valueType :db.type/string :db/cardinality :db.cardinality/one :db/unique :db.unique/identity}
    {:db/ident :g/key :db/valueType :db.type/long :db/cardinality :db.cardinality/one :db/unique :db.unique/identity}
    {:db/ident :g/held :db/valueType :db.type/long :db/cardinality :db.cardinality/many :db/unique :db.unique/value}
    {:db/ident :g/ref :db/valueType :db.type/ref :db/cardinality :db.cardinality/many}
    {:db/ident :g/to :db/valueType :db.type/ref :db/cardinality :db.cardinality/one}
    {:db/ident :g/part :db/valueType :db.type/ref :db/cardinality :db.cardinality/many :db/isComponent true}]";

/// Entities 17592186044425 to 17592186044429.
pub const PEOPLE: &str = "[
    {:db/id \"a\" :g/one 1 :g/id \"k1\"}
    {:db/id \"b\" :g/one 2 :g/key 1 :g/part \"c\"}
    {:db/id \"c\" :g/many [1 2] :g/ref [\"a\" \"b\"]}
    {:db/id \"d\" :g/held 1 :g/to \"a\"}
    {:db/id \"e\" :g/id \"k2\" :g/part \"d\"}]";

const LONGS: [&str; 4] = [":g/one", ":g/many", ":g/key", ":g/held"];

const REFS: [&str; 3] = [":g/ref", ":g/to", ":g/part"];

const REVERSED: [&str; 3] = [":g/_ref", ":g/_to", ":g/_part"];

const TEMPIDS: [&str; 4] = ["\"a\"", "\"b\"", "\"c\"", "\"datomic.tx\""];

const NAMES: [&str; 8] = [
    "[:g/id \"k1\"]",
    "[:g/id \"k2\"]",
    "[:g/key 1]",
    ":g/one",
    ":g/id",
    "13194139533313",
    "[:g/one 1]",
    ":no/one",
];

const CHANGES_OF_SCHEMA: [&str; 10] = [
    "[:db/add :g/one :db/cardinality :db.cardinality/many]",
    "[:db/add :g/many :db/cardinality :db.cardinality/one]",
    "[:db/add :g/many :db/index true]",
    "[:db/add :g/one :db/unique :db.unique/value]",
    "[:db/retract :g/held :db/unique :db.unique/value]",
    "{:db/ident :g/new :db/valueType :db.type/long :db/cardinality :db.cardinality/one}",
    "{:db/ident :g/half :db/valueType :db.type/long}",
    "[:db/add :g/one :db/ident :g/two]",
    "[:db/retract :g/key :db/cardinality :db.cardinality/one]",
    "[:db/add \"n\" :db/ident :db/mine]",
];

/// The data of a transaction of one to three forms.
pub fn data(alloc: Global, dice: &mut Dice) -> Result<String> {
    let mut out = String::new(alloc);
    out.push('[')?;
    let forms = 1 + dice.roll(3);
    for _ in 0..forms {
        form(dice, &mut out)?;
        out.push(' ')?;
    }
    out.push(']')?;
    Ok(out)
}

fn form(dice: &mut Dice, out: &mut String) -> Result<()> {
    match dice.roll(14) {
        0..=3 => triple(dice, "[:db/add ", true, out),
        4 => triple(dice, "[:db/retract ", false, out),
        5 => sweep(dice, out),
        6 => compare(dice, out),
        7..=10 => map(dice, out),
        11 => fault(dice, out),
        _ => change_of_schema(dice, out),
    }
}

fn change_of_schema(dice: &mut Dice, out: &mut String) -> Result<()> {
    if dice.once_in(3) {
        out.push_str(dice.pick(&CHANGES_OF_SCHEMA))?;
    } else {
        triple(dice, "[:db/add ", true, out)?;
    }
    Ok(())
}

/// What has no shape, speaks of what it must not, or gives a tempid two holders.
fn fault(dice: &mut Dice, out: &mut String) -> Result<()> {
    out.push_str(match dice.roll(12) {
        0 => "[:db/add \"a\"]",
        1 => "{}",
        2 => "[:db/add \"a\" :no/attribute 1]",
        3 => "[:db/add \"datomic.tx\" :db/txInstant #inst \"2024-01-01\"]",
        4 => "[:db/add \"a\" :g/one \"text\"]",
        5 => "[:db/add \"a\" :g/_one 1]",
        6 => "{:g/one [1 2]}",
        7 => "{:g/to {:g/one 1}}",
        8 => "[:db/cas [:g/id \"k1\"] :g/many nil 1]",
        9 => "[:db/add \"a\" :g/id \"k1\"] [:db/add \"a\" :g/key 1]",
        _ => "[:db/add \"a\" :g/id \"k3\"]",
    })?;
    Ok(())
}

fn triple(dice: &mut Dice, verb: &str, adds: bool, out: &mut String) -> Result<()> {
    out.push_str(verb)?;
    entity(dice, adds, out)?;
    attribute_and_value(dice, adds, out)?;
    out.push(']')?;
    Ok(())
}

fn sweep(dice: &mut Dice, out: &mut String) -> Result<()> {
    if dice.once_in(2) {
        out.push_str("[:db/retractEntity ")?;
        entity(dice, false, out)?;
    } else {
        out.push_str("[:db/retract ")?;
        entity(dice, false, out)?;
        out.push(' ')?;
        out.push_str(dice.pick(&LONGS))?;
    }
    out.push(']')?;
    Ok(())
}

fn compare(dice: &mut Dice, out: &mut String) -> Result<()> {
    out.push_str("[:db/cas ")?;
    entity(dice, false, out)?;
    out.push_str(" :g/one ")?;
    if dice.once_in(2) {
        out.push_str("nil")?;
    } else {
        long(dice, out)?;
    }
    out.push(' ')?;
    long(dice, out)?;
    out.push(']')?;
    Ok(())
}

/// A user entity, a tempid where one may be, or a name.
fn entity(dice: &mut Dice, new: bool, out: &mut String) -> Result<()> {
    match dice.roll(12) {
        0..=4 if new => out.push_str(dice.pick(&TEMPIDS))?,
        5 => out.push_str(dice.pick(&NAMES))?,
        _ => {
            out.push_str("175921860444")?;
            out.push_str(dice.pick(&["25", "26", "27", "28", "29"]))?;
        }
    }
    Ok(())
}

fn long(dice: &mut Dice, out: &mut String) -> Result<()> {
    out.push_str(dice.pick(&["0", "1", "2", "3", "-1"]))?;
    Ok(())
}

fn attribute_and_value(dice: &mut Dice, new: bool, out: &mut String) -> Result<()> {
    out.push(' ')?;
    match dice.roll(8) {
        0 => out.push_str(dice.pick(&[":db/doc \"text\"", ":db/doc \"\""]))?,
        1 | 2 => {
            out.push_str(":g/id ")?;
            out.push_str(dice.pick(&["\"k1\"", "\"k2\"", "\"k3\""]))?;
        }
        3 | 4 => {
            out.push_str(dice.pick(&REFS))?;
            out.push(' ')?;
            entity(dice, new, out)?;
        }
        _ => {
            out.push_str(dice.pick(&LONGS))?;
            out.push(' ')?;
            long(dice, out)?;
        }
    }
    Ok(())
}

/// A map, with one inside it now and then.
fn map(dice: &mut Dice, out: &mut String) -> Result<()> {
    out.push('{')?;
    pairs(dice, out)?;
    if dice.once_in(3) {
        links(dice, out)?;
    }
    out.push('}')?;
    Ok(())
}

fn inner_map(dice: &mut Dice, out: &mut String) -> Result<()> {
    out.push('{')?;
    pairs(dice, out)?;
    out.push('}')?;
    Ok(())
}

/// Pairs whose keys differ, since each key has its turn once.
fn pairs(dice: &mut Dice, out: &mut String) -> Result<()> {
    if dice.once_in(2) {
        out.push_str(":db/id ")?;
        entity(dice, true, out)?;
        out.push(' ')?;
    }
    out.push_str(dice.pick(&[
        ":db/doc \"text\" ",
        ":g/one 1 ",
        ":g/id \"k1\" ",
        ":g/key 2 ",
    ]))?;
    if dice.once_in(3) {
        out.push_str(":g/many ")?;
        out.push_str(dice.pick(&["[1 2]", "#{2 3}", "(3)", "[]", "1"]))?;
        out.push(' ')?;
    }
    Ok(())
}

/// A reference to entities, forward or reversed.
fn links(dice: &mut Dice, out: &mut String) -> Result<()> {
    let key = if dice.once_in(3) {
        dice.pick(&REVERSED)
    } else {
        dice.pick(&REFS)
    };
    out.push_str(key)?;
    out.push(' ')?;
    match dice.roll(3) {
        0 => entity(dice, true, out)?,
        1 => inner_map(dice, out)?,
        _ => {
            out.push('[')?;
            inner_map(dice, out)?;
            out.push(' ')?;
            entity(dice, true, out)?;
            out.push(']')?;
        }
    }
    out.push(' ')?;
    Ok(())
}
