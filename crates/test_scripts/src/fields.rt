//! Attributes that drawn scripts speak of, with values to choose from: so few that they collide often.

/// An attribute, the name of its type, and values of it; none where its values are entities.
#[derive(Clone, Copy)]
pub(crate) struct Field {
    pub(crate) name: &'static str,
    pub(crate) kind: &'static str,
    pub(crate) values: &'static [&'static str],
}

const LONGS: &[&str] = &["-2", "-1", "0", "1", "2", "3", "9223372036854775807"];

const STRINGS: &[&str] = &["\"\"", "\"a\"", "\"b\"", "\"b a\"", "\"\\u00e9\""];

const KEYWORDS: &[&str] = &[":a/b", ":a", ":g/one", ":z/z"];

const TRUTHS: &[&str] = &["true", "false"];

const INSTANTS: &[&str] = &[
    "#inst \"2024-01-01\"",
    "#inst \"2024-01-01T00:00:00.002Z\"",
    "#inst \"1969-12-31T23:59:59.999Z\"",
];

const UUIDS: &[&str] = &[
    "#uuid \"00000000-0000-0000-0000-000000000001\"",
    "#uuid \"f81d4fae-7dec-11d0-a765-00a0c91e6bf6\"",
];

const SYMBOLS: &[&str] = &["a", "b/c", "z"];

const URIS: &[&str] = &["\"http://a\"", "\"http://b\""];

const KEYS: &[&str] = &["\"k1\"", "\"k2\"", "\"k3\""];

const TEXTS: &[&str] = &["\"text\"", "\"\""];

const IDENTS: &[&str] = &[
    ":g/one",
    ":g/two",
    ":h/long",
    ":db/doc",
    ":no/one",
    ":h/renamed",
];

const TYPES: &[&str] = &[":db.type/long", ":db.type/ref", "14", "11"];

const ENTITIES: &[&str] = &[];

/// Those of which a world installs some.
pub(crate) const OWN: &[Field] = &[
    Field {
        name: ":h/keyword",
        kind: ":db.type/keyword",
        values: KEYWORDS,
    },
    Field {
        name: ":h/string",
        kind: ":db.type/string",
        values: STRINGS,
    },
    Field {
        name: ":h/boolean",
        kind: ":db.type/boolean",
        values: TRUTHS,
    },
    Field {
        name: ":h/long",
        kind: ":db.type/long",
        values: LONGS,
    },
    Field {
        name: ":h/ref",
        kind: ":db.type/ref",
        values: ENTITIES,
    },
    Field {
        name: ":h/part",
        kind: ":db.type/ref",
        values: ENTITIES,
    },
    Field {
        name: ":h/instant",
        kind: ":db.type/instant",
        values: INSTANTS,
    },
    Field {
        name: ":h/uuid",
        kind: ":db.type/uuid",
        values: UUIDS,
    },
    Field {
        name: ":h/symbol",
        kind: ":db.type/symbol",
        values: SYMBOLS,
    },
    Field {
        name: ":h/uri",
        kind: ":db.type/uri",
        values: URIS,
    },
];

/// Those of the transactions that other tests draw too.
pub(crate) const SHARED: &[Field] = &[
    Field {
        name: ":g/one",
        kind: ":db.type/long",
        values: LONGS,
    },
    Field {
        name: ":g/many",
        kind: ":db.type/long",
        values: LONGS,
    },
    Field {
        name: ":g/key",
        kind: ":db.type/long",
        values: LONGS,
    },
    Field {
        name: ":g/held",
        kind: ":db.type/long",
        values: LONGS,
    },
    Field {
        name: ":g/id",
        kind: ":db.type/string",
        values: KEYS,
    },
    Field {
        name: ":g/ref",
        kind: ":db.type/ref",
        values: ENTITIES,
    },
    Field {
        name: ":g/part",
        kind: ":db.type/ref",
        values: ENTITIES,
    },
];

/// Those of the first entry, and one that is nowhere.
pub(crate) const OTHERS: &[Field] = &[
    Field {
        name: ":db/doc",
        kind: ":db.type/string",
        values: TEXTS,
    },
    Field {
        name: ":db/ident",
        kind: ":db.type/keyword",
        values: IDENTS,
    },
    Field {
        name: ":db/valueType",
        kind: ":db.type/ref",
        values: TYPES,
    },
    Field {
        name: ":db/txInstant",
        kind: ":db.type/instant",
        values: INSTANTS,
    },
    Field {
        name: ":no/one",
        kind: ":db.type/long",
        values: LONGS,
    },
];
