//! What drawn commands have: points, names, values and components, most of which can be read.
ghost use Rattle.std.specs.Prelude.{◌<◌, length};

use crate::fields::{Field, OTHERS, OWN};
use crate::worlds::World;
use anyhow::{Result, bail};
use std::alloc::Global;
use test_data::Dice;

/// Writes commands for a world.
#[derive(Drop)]
pub(crate) struct Pen<'a> {
    pub(crate) alloc: Global,
    pub(crate) dice: &'a mut Dice,
    pub(crate) world: &'a World,
    out: String,
    /// Whether memory ran out: `finish` says so.
    failed: bool,
}

const OTHER_POINTS: &[&str] = &[
    "-1",
    "2147483647",
    "2147483648",
    "13194139533311",
    "13196287016959",
    "13196287016960",
    "\"x\"",
    "nil",
    ":db/doc",
    "#inst \"1969-12-31T23:59:59.999Z\"",
];

const NAMES: &[&str] = &[
    "[:g/id \"k1\"]",
    "[:g/key 1]",
    "[:g/held 1]",
    "[:h/string \"a\"]",
    "[:h/long 2]",
    "[:h/keyword :a/b]",
    "[:h/uri \"http://a\"]",
    "[:h/uuid #uuid \"00000000-0000-0000-0000-000000000001\"]",
    "[:db/ident :h/string]",
    ":h/long",
    ":h/keyword",
    ":g/one",
    ":h/renamed",
    ":db/doc",
    ":db.type/long",
];

const NO_NAMES: &[&str] = &[
    "-1",
    "\"x\"",
    "nil",
    ":no/one",
    "[:h/string]",
    "[:h/long \"a\"]",
    "9223372036854775807",
];

const INDEXES: &[&str] = &["eavt", "aevt", "avet", "vaet"];

impl<'a> Pen<'a> {
    pub(crate) fn new(alloc: Global, dice: &'a mut Dice, world: &'a World) -> Pen<'a> {
        Pen {
            alloc,
            dice,
            world,
            out: String::new(alloc),
            failed: false,
        }
    }

    /// What was written, if there was room for all of it.
    pub(crate) fn finish(self) -> Result<String> {
        if self.failed {
            bail!("out of memory");
        }
        Ok(self.out)
    }

    pub(crate) fn fail(&mut self) {
        self.failed = true;
    }

    pub(crate) fn write(&mut self, text: &str) {
        if self.out.push_str(text).is_err() {
            self.fail();
        }
    }

    pub(crate) fn write_all(&mut self, texts: &[&str]) {
        for text in texts {
            self.write(text);
        }
    }

    pub(crate) fn write_one(&mut self, texts: &[&str])
        requires { 0 < length texts.now }
    {
        let text = self.dice.pick(texts);
        self.write(text);
    }

    fn write_number(&mut self, number: u64) {
        if write!(self.out, "{number}").is_err() {
            self.fail();
        }
    }

    /// An attribute that the world installs, or now and then another one.
    pub(crate) fn own_field(&mut self) -> Field {
        let other = OWN[self.dice.roll(10) as usize];
        let place = self.dice.roll(22) as usize;
        match self.world.fields.len() {
            0 => other,
            _ if self.dice.once_in(16) => other,
            count => self.world.fields[place % count],
        }
    }

    /// The same, or one that is always there.
    pub(crate) fn field(&mut self) -> Field {
        if self.dice.once_in(4) {
            OTHERS[self.dice.roll(5) as usize]
        } else {
            self.own_field()
        }
    }

    /// A point in time.
    pub(crate) fn point(&mut self) {
        let t = self.dice.roll(7);
        match self.dice.roll(12) {
            0..=5 => self.write_number(t),
            6..=7 => self.transaction(t + 12),
            8..=10 => self.instant(t),
            _ => self.write_one(OTHER_POINTS),
        }
    }

    /// An entity of a transaction.
    fn transaction(&mut self, last_digits: u64) {
        self.write("131941395333");
        self.write_number(last_digits);
    }

    fn instant(&mut self, milliseconds: u64) {
        self.write("#inst \"2024-01-01T00:00:00.00");
        self.write_number(milliseconds);
        self.write("Z\"");
    }

    /// An entity by its name.
    pub(crate) fn entity(&mut self) {
        let user = 17 + self.dice.roll(16);
        match self.dice.roll(24) {
            0..=17 => self.user(user),
            18..=21 => self.write_one(NAMES),
            22 => self.write_one(NO_NAMES),
            _ => self.write("13194139533313"),
        }
    }

    fn user(&mut self, last_digits: u64) {
        self.write("175921860444");
        self.write_number(last_digits);
    }

    /// A value of the attribute, or now and then one of another.
    pub(crate) fn value(&mut self, field: Field) {
        let values = if self.dice.once_in(20) {
            self.field().values
        } else {
            field.values
        };
        if values.is_empty() {
            self.entity();
        } else {
            self.write_one(values);
        }
    }

    pub(crate) fn value_or_nil(&mut self, field: Field) {
        if self.dice.once_in(3) {
            self.write("nil");
        } else {
            self.value(field);
        }
    }

    pub(crate) fn point_or_nil(&mut self) {
        if self.dice.once_in(3) {
            self.write("nil");
        } else {
            self.point();
        }
    }

    /// An index and up to four of its components.
    pub(crate) fn index_and_components(&mut self) {
        let field = self.field();
        let index = self.dice.pick(INDEXES);
        self.write_all(&[":", index]);
        let count = self.dice.roll(5) as usize;
        for part in index.as_bytes().iter().take(count) {
            self.write(" ");
            self.component(field, *part);
        }
    }

    fn component(&mut self, field: Field, part: u8) {
        match part {
            b'e' => self.entity(),
            b'a' => self.write(field.name),
            b'v' => self.value(field),
            _ => self.point(),
        }
    }
}
