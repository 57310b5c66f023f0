//! Logs that are known to be lawful, and such as are not: each entry says something of an attribute whose values are unique, or of
//! those who have it. No clause says that a lawful log is known to be one.
use fb_memory::Memory;
use fb_numbers::{
    CARDINALITY, CARDINALITY_ONE, IDENT, INDEX, TX_INSTANT, TYPE_STRING, UNIQUE, UNIQUE_IDENTITY,
    USER_ENTITIES, VALUE_TYPE, transaction_entity,
};
use fb_text::Text;
use fb_values::{Datom, Datoms, Entry, Value};
use log_sweep::is_lawful;
use std::alloc::Global;
use std::test::Fail;

/// The first user entities: an attribute, and two that have it.
const KEY: u64 = USER_ENTITIES + 1;

const ANN: u64 = USER_ENTITIES + 2;

const BOB: u64 = USER_ENTITIES + 3;

#[derive(Clone, Copy)]
enum Said {
    Name(&'static str),
    Text(&'static str),
    Entity(u64),
    Yes,
}

/// An entity, an attribute of it, a value, and whether that is added.
type Change = (u64, u64, Said, bool);

const KEY_COMES: &[Change] = &[
    (KEY, IDENT, Said::Name("key"), true),
    (KEY, VALUE_TYPE, Said::Entity(TYPE_STRING), true),
    (KEY, CARDINALITY, Said::Entity(CARDINALITY_ONE), true),
    (KEY, UNIQUE, Said::Entity(UNIQUE_IDENTITY), true),
];

const KEY_IS_INDEXED: &[Change] = &[(KEY, INDEX, Said::Yes, true)];

const KEY_IS_ALTERED: &[Change] = &[(KEY, UNIQUE, Said::Entity(UNIQUE_IDENTITY), false)];

const KEY_IS_HALF: &[Change] = &[
    (KEY, IDENT, Said::Name("key"), true),
    (KEY, VALUE_TYPE, Said::Entity(TYPE_STRING), true),
];

const ANN_GETS_A: &[Change] = &[(ANN, KEY, Said::Text("a"), true)];

const ANN_LOSES_A: &[Change] = &[(ANN, KEY, Said::Text("a"), false)];

const ANN_GETS_TWO: &[Change] = &[
    (ANN, KEY, Said::Text("a"), true),
    (ANN, KEY, Said::Text("b"), true),
];

const BOB_GETS_A: &[Change] = &[(BOB, KEY, Said::Text("a"), true)];

const BOB_TAKES_A: &[Change] = &[
    (ANN, KEY, Said::Text("a"), false),
    (BOB, KEY, Said::Text("a"), true),
];

/// The entries from t = 1 on, and whether they are known to be lawful.
type Row = (&'static [&'static [Change]], bool);

const ROWS: &[Row] = &[
    (&[], true),
    (&[KEY_COMES], true),
    (&[KEY_COMES, KEY_IS_INDEXED], true),
    (&[KEY_COMES, ANN_GETS_A, BOB_TAKES_A], true),
    (&[KEY_COMES, ANN_GETS_A, ANN_LOSES_A, ANN_GETS_A], true),
    (&[KEY_IS_HALF], false),
    (&[KEY_COMES, KEY_IS_ALTERED], false),
    (&[ANN_GETS_A], false),
    (&[KEY_COMES, ANN_LOSES_A], false),
    (&[KEY_COMES, ANN_GETS_TWO], false),
    (&[KEY_COMES, ANN_GETS_A, ANN_GETS_A], false),
    (&[KEY_COMES, ANN_GETS_A, BOB_GETS_A], false),
];

fn value_of(alloc: Global, said: Said) -> Result<Value, Memory> {
    match said {
        Said::Name(name) => Ok(Value::Keyword(Text::of(alloc, name)?)),
        Said::Text(text) => Ok(Value::Str(Text::of(alloc, text)?)),
        Said::Entity(e) => Ok(Value::Ref(e)),
        Said::Yes => Ok(Value::Bool(true)),
    }
}

fn entry_of(alloc: Global, t: u32, changes: &[Change]) -> Result<Entry, Memory> {
    let instant = i64::from(t);
    let mut datoms = vec![in alloc;
        Datom {
            e: transaction_entity(t),
            a: TX_INSTANT,
            v: Value::Instant(instant),
            t,
            added: true,
        },
    ]?;
    for (e, a, said, added) in changes {
        datoms.push(Datom {
            e: *e,
            a: *a,
            v: value_of(alloc, *said)?,
            t,
            added: *added,
        })?;
    }
    Ok(Entry {
        t,
        instant,
        datoms: Datoms::of(datoms),
    })
}

fn is_known(alloc: Global, log: &[&[Change]]) -> Result<bool, Memory> {
    let mut entries = Vec::new(alloc);
    let mut t: u32 = 0;
    for changes in log {
        t = t.saturating_add(1);
        entries.push(entry_of(alloc, t, changes)?)?;
    }
    is_lawful(alloc, &entries)
}

#[test]
fn lawful_logs_are_known(rt: HostRuntime) -> Result<(), Fail> {
    for (log, want) in ROWS {
        let known = is_known(rt.alloc(), log)?;
        assert_eq!(rt; known, *want, "{} entries", log.len());
    }
    Ok(())
}
