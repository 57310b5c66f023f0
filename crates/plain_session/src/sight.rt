//! What the reads of a session see, and the names that are found in it.
use crate::filters::{Filter, selects};
use edn_form::Edn;
use fb_memory::Memory;
use fb_values::{Datom, Entry, Order};
use plain_asks::value_in;
use plain_reads::{Attribute, Range, Window, attribute_named, holder, named, scan, view};
use std::alloc::Global;

#[derive(Clone, Copy)]
pub(crate) struct Sight<'a> {
    pub(crate) alloc: Global,
    pub(crate) entries: &'a [Entry],
    /// What holds at the end of the whole history: names of attributes, their types and their indexes go by it.
    pub(crate) facts: &'a [Datom],
    pub(crate) window: Window,
    pub(crate) filters: &'a [Filter],
}

impl Sight<'_> {
    /// The datoms of the range, in the index's order.
    pub(crate) fn scanned(&self, order: Order, range: &Range) -> Result<Vec<Datom>, Memory> {
        let datoms = scan(self.alloc, self.entries, self.window, order, range)?;
        self.selected(&datoms)
    }

    /// Those that every filter selects.
    fn selected(&self, datoms: &[Datom]) -> Result<Vec<Datom>, Memory> {
        let mut list = Vec::new(self.alloc);
        for d in datoms {
            if self.filters.iter().all(|filter| selects(*filter, d)) {
                list.push(d.copy()?)?;
            }
        }
        Ok(list)
    }

    /// The facts of the window without its history, under the filters.
    pub(crate) fn seen(&self) -> Result<Vec<Datom>, Memory> {
        let window = Window {
            history: false,
            ..self.window
        };
        let seen = view(self.alloc, self.entries, window)?;
        self.selected(&seen)
    }

    /// The entity that the form names in the window without its history, under the filters: by a number, an ident, or a lookup
    /// ref.
    pub(crate) fn entity(&self, form: &Edn) -> Result<Option<u64>, Memory> {
        match form {
            Edn::Int(n) => Ok(u64::try_from(*n).ok()),
            Edn::Key(name) => Ok(named(&self.seen()?, name.as_str())),
            Edn::Vector(members) => self.looked_up(members.as_slice()),
            _ => Ok(None),
        }
    }

    fn looked_up(&self, members: &[Edn]) -> Result<Option<u64>, Memory> {
        let [Edn::Key(name), form] = members else {
            return Ok(None);
        };
        match attribute_named(self.facts, name.as_str()) {
            Some(attribute) if attribute.uniqueness != 0 => self.holder_of(&attribute, form),
            _ => Ok(None),
        }
    }

    fn holder_of(&self, attribute: &Attribute<'_>, form: &Edn) -> Result<Option<u64>, Memory> {
        match value_in(attribute.kind, form)? {
            Some(v) => Ok(holder(&self.seen()?, attribute.id, &v)),
            None => Ok(None),
        }
    }
}
