//! Pulls that are drawn: patterns of every kind, most of which can be read, of entities that are often there.
use crate::pen::Pen;

/// Attributes whose values are entities, and reversed names.
const LINKS: &[&str] = &[
    ":h/ref",
    ":h/ref",
    ":h/part",
    ":h/part",
    ":h/_ref",
    ":h/_part",
    ":db/valueType",
    ":db/_valueType",
];

const SHARED_LINKS: &[&str] = &[
    ":g/ref", ":g/ref", ":g/part", ":g/part", ":g/_ref", ":g/_part",
];

const OPTIONS: &[&str] = &[
    ":limit 1",
    ":limit 2",
    ":limit 1000",
    ":limit nil",
    ":as :k/other",
    ":as \"text\"",
    ":as :db/id",
    ":as :h/long",
    ":default 0",
    ":default nil",
    ":default [\"none\" {:a #{1}}]",
    ":limit 1 :as :k/first :default :k/none",
    ":default \"\" :limit 2147483647",
];

const TIMES: &[&str] = &["...", "...", "1", "2", "3", "2147483647"];

const NO_ITEMS: &[&str] = &[
    "7",
    "nil",
    "\"*\"",
    "...",
    "{}",
    "[]",
    "[:h/long]",
    "[:h/long :limit 0]",
    "[:h/long :limit 2147483648]",
    "[:h/long :limit]",
    "[:h/long :as 1]",
    "[:h/long :as :k/a :as :k/b]",
    "[* :limit 1]",
    "{:h/ref []}",
    "{:h/ref 0}",
    "{:h/ref [:h/long 7]}",
    "{:db/id [*]}",
    "{* 1}",
];

const NO_PATTERNS: &[&str] = &["[]", "*", ":db/doc", "{:h/ref [*]}", "(:db/doc)"];

impl Pen<'_> {
    pub(crate) fn pull(&mut self) {
        self.write("[:pull ");
        if self.dice.once_in(32) {
            self.write_one(NO_PATTERNS);
        } else {
            self.pattern();
        }
        self.write(" ");
        self.entity();
        self.write("]");
    }

    /// Patterns inside one another, with items before and after the one inside.
    fn pattern(&mut self) {
        let around = self.dice.roll(3);
        for _ in 0..around {
            self.write("[");
            self.items();
            self.write("{");
            self.key();
            self.write(" ");
        }
        self.write("[");
        self.item();
        self.items();
        self.write("]");
        for _ in 0..around {
            self.write("} ");
            self.items();
            self.write("]");
        }
    }

    fn items(&mut self) {
        let count = self.dice.roll(4);
        for _ in 0..count {
            self.item();
        }
    }

    fn item(&mut self) {
        match self.dice.roll(64) {
            0..=7 => self.write("*"),
            8..=12 => self.write(":db/id"),
            13 => self.write_one(NO_ITEMS),
            14..=33 => self.name(),
            34..=47 => self.name_with_options(),
            _ => self.recursion(),
        }
        self.write(" ");
    }

    /// An attribute, or now and then its reversed name.
    fn name(&mut self) {
        if self.dice.once_in(4) {
            return self.link();
        }
        let name = self.field().name;
        match name.split_once('/') {
            Some((namespace, local)) if self.dice.once_in(4) => {
                self.write_all(&[namespace, "/_", local]);
            }
            _ => self.write(name),
        }
    }

    fn link(&mut self) {
        if self.world.is_shared {
            self.write_one(SHARED_LINKS);
        } else {
            self.write_one(LINKS);
        }
    }

    fn name_with_options(&mut self) {
        self.write("[");
        self.name();
        self.write(" ");
        self.write_one(OPTIONS);
        self.write("]");
    }

    /// What leads to the entities of a pattern below.
    fn key(&mut self) {
        match self.dice.roll(6) {
            0 => self.name_with_options(),
            1 => self.name(),
            _ => self.link(),
        }
    }

    fn recursion(&mut self) {
        self.write("{");
        self.key();
        self.write(" ");
        self.write_one(TIMES);
        self.write("}");
    }
}
