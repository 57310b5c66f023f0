//! Commands of every kind that are drawn from a seed, most of them sensible.
use crate::fields::Field;
use crate::pen::Pen;
use crate::worlds::World;
use anyhow::Result;
use std::alloc::Global;
use test_data::{Dice, data};

const OTHER_FORMS: &[&str] = &[
    "[:pull]",
    "[:pull [:db/doc]]",
    "[:datoms]",
    "[:datoms :tvea]",
    "[:db 0]",
    "(:db)",
    "nil",
    "[:seek :eavt 1 2 3 4 5]",
    "[:tuple-range [:db/doc :db/ident] nil]",
    "[:filter :users :no-doc]",
];

const CHANGES_OF_SCHEMA: &[(&str, &str)] = &[
    (":db/add", ":db/index true"),
    (":db/add", ":db/index true"),
    (":db/retract", ":db/index true"),
    (":db/add", ":db/ident :h/renamed"),
    (":db/add", ":db/unique :db.unique/value"),
    (":db/add", ":db/cardinality :db.cardinality/many"),
];

const TEMPIDS: &[&str] = &["\"x\"", "\"y\"", "\"z\""];

const FILTERS: &[&str] = &["users", "no-doc", "positive", "none"];

/// Commands with which a script may go on in the world.
pub(crate) fn commands(alloc: Global, dice: &mut Dice, world: &World) -> Result<String> {
    let count = 8 + dice.roll(8);
    let mut pen = Pen::new(alloc, dice, world);
    for _ in 0..count {
        pen.command();
        pen.write("\n");
    }
    pen.finish()
}

impl Pen<'_> {
    fn command(&mut self) {
        match self.dice.roll(32) {
            0..=4 => self.transact(),
            5 if self.world.is_shared => self.transact_shared(),
            5 | 6 => self.change_schema(),
            7..=10 => self.turn(),
            11..=14 => self.scan("[:datoms "),
            15..=17 => self.scan("[:seek "),
            18..=20 => self.index_range(),
            21 | 22 => self.tx_range(),
            23..=28 => self.pull(),
            29 => self.tuple_range(),
            30 => self.tried(),
            _ => self.other(),
        }
    }

    fn transact_shared(&mut self) {
        match data(self.alloc, self.dice) {
            Ok(data) => self.write_all(&["[:transact ", data.as_str(), "]"]),
            Err(_) => self.fail(),
        }
    }

    fn transact(&mut self) {
        self.write("[:transact ");
        self.data();
        self.write("]");
    }

    /// What a transaction is asked.
    fn data(&mut self) {
        self.write("[");
        let forms = 1 + self.dice.roll(4);
        for _ in 0..forms {
            self.form();
        }
        self.write("]");
    }

    /// Up to three transactions that are tried, and a look behind them.
    fn tried(&mut self) {
        self.write("[:with [");
        let count = self.dice.roll(4);
        for _ in 0..count {
            self.data();
        }
        self.write("] ");
        self.look();
        self.write("]");
    }

    fn look(&mut self) {
        match self.dice.roll(16) {
            0..=4 => self.scan("[:datoms "),
            5..=7 => self.scan("[:seek "),
            8..=9 => self.index_range(),
            10..=11 => self.tx_range(),
            _ => self.pull(),
        }
    }

    fn form(&mut self) {
        match self.dice.roll(8) {
            0..=5 => self.add(),
            6 => self.retract(),
            _ => self.retract_entity(),
        }
    }

    fn add(&mut self) {
        self.write("[:db/add ");
        self.new_entity();
        self.attribute_and_value();
    }

    fn retract(&mut self) {
        self.write("[:db/retract ");
        self.entity();
        self.attribute_and_value();
    }

    fn retract_entity(&mut self) {
        self.write("[:db/retractEntity ");
        self.entity();
        self.write("]");
    }

    fn new_entity(&mut self) {
        if self.dice.once_in(2) {
            self.write_one(TEMPIDS);
        } else {
            self.entity();
        }
    }

    fn attribute_and_value(&mut self) {
        let field = if self.dice.once_in(16) {
            self.field()
        } else {
            self.own_field()
        };
        self.write_all(&[" ", field.name, " "]);
        self.value(field);
        self.write("]");
    }

    fn change_schema(&mut self) {
        let name = self.own_field().name;
        let (verb, change) = CHANGES_OF_SCHEMA[self.dice.roll(6) as usize];
        self.write_all(&["[:transact [[", verb, " ", name, " ", change, "]]]"]);
    }

    /// A command that changes what the session sees.
    fn turn(&mut self) {
        match self.dice.roll(12) {
            0..=3 => self.move_end(),
            4..=5 => self.write("[:history]"),
            6..=8 => self.filter(),
            _ => self.write("[:unfilter]"),
        }
    }

    fn move_end(&mut self) {
        self.write_one(&["[:as-of ", "[:since "]);
        self.point();
        self.write("]");
    }

    fn filter(&mut self) {
        self.write("[:filter :");
        self.write_one(FILTERS);
        self.write("]");
    }

    fn scan(&mut self, word: &str) {
        self.write(word);
        self.index_and_components();
        self.write("]");
    }

    fn index_range(&mut self) {
        let field = self.field();
        self.write_all(&["[:index-range ", field.name, " "]);
        self.value_or_nil(field);
        self.write(" ");
        self.value_or_nil(field);
        self.write("]");
    }

    /// A range of the tuples of up to three attributes, most often of two.
    fn tuple_range(&mut self) {
        let fields = [self.field(), self.field(), self.field()];
        match self.dice.roll(8) {
            0 => self.tuples_of(&fields[..1]),
            1..=5 => self.tuples_of(&fields[..2]),
            _ => self.tuples_of(&fields),
        }
    }

    fn tuples_of(&mut self, fields: &[Field]) {
        self.write("[:tuple-range [");
        for field in fields {
            self.write_all(&[field.name, " "]);
        }
        self.write("] ");
        self.tuple_or_nil(fields);
        self.write(" ");
        self.tuple_or_nil(fields);
        self.write("]");
    }

    fn tuple_or_nil(&mut self, fields: &[Field]) {
        if self.dice.once_in(2) {
            return self.write("nil");
        }
        self.write("[");
        for field in fields {
            self.value_or_nil(*field);
            self.write(" ");
        }
        self.write("]");
    }

    fn tx_range(&mut self) {
        self.write("[:tx-range ");
        self.point_or_nil();
        self.write(" ");
        self.point_or_nil();
        self.write("]");
    }

    fn other(&mut self) {
        match self.dice.roll(6) {
            0 => self.write("[:db]"),
            1 => self.write("[:sync]"),
            2 => self.write("[:request-index]"),
            _ => self.write_one(OTHER_FORMS),
        }
    }
}
