//! What the commands that look reply.
use crate::commands::Look;
use crate::points::log_range;
use crate::replies;
use crate::sight::Sight;
use crate::stops::ReadStop;
use edn_form::Edn;
use fb_values::Order;
use plain_reads::{Range, basis, transactions};

impl Sight<'_> {
    pub(crate) fn reply(&self, look: Look<'_>) -> Result<Edn, ReadStop> {
        match look {
            Look::Datoms(order, components) => self.datoms(order, components),
            Look::Seek(order, components) => self.seek(order, components),
            Look::IndexRange(attribute, start, end) => self.index_range(attribute, start, end),
            Look::TxRange(start, stop) => self.log(start, stop),
            Look::Pull(pattern, entity) => self.pull(pattern, entity),
        }
    }

    fn datoms(&self, order: Order, components: &[Edn]) -> Result<Edn, ReadStop> {
        let probe = self.probe(order, components)?;
        self.shown(order, &Range::Leading(probe))
    }

    fn seek(&self, order: Order, components: &[Edn]) -> Result<Edn, ReadStop> {
        let probe = self.probe(order, components)?;
        self.shown(order, &Range::NotBelow(probe))
    }

    fn index_range(&self, attribute: &Edn, start: &Edn, end: &Edn) -> Result<Edn, ReadStop> {
        let range = self.range(attribute, start, end)?;
        self.shown(Order::Avet, &range)
    }

    fn shown(&self, order: Order, range: &Range) -> Result<Edn, ReadStop> {
        let datoms = self.scanned(order, range)?;
        let basis = basis(self.entries);
        Ok(replies::datoms(self.alloc, basis, self.facts, &datoms)?)
    }

    /// The transactions of a range of the log, which no window and no filter hides.
    fn log(&self, start: &Edn, stop: &Edn) -> Result<Edn, ReadStop> {
        let (start, stop) = log_range(self.entries, start, stop)?;
        let list = transactions(self.alloc, self.entries, start, stop)?;
        let basis = basis(self.entries);
        Ok(replies::transactions(self.alloc, basis, self.facts, &list)?)
    }
}
