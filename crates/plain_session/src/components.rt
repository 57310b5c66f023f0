//! Components of an index, read from left to right, and ranges of values.
use crate::points::t_in;
use crate::sight::Sight;
use crate::stops::{ReadStop, or_refused};
use edn_form::Edn;
use fb_memory::Memory;
use fb_numbers::TYPE_REF;
use fb_values::{Order, Probe, Value};
use plain_asks::value_in;
use plain_reads::{Attribute, Range, attribute_named, attribute_of, covers};

const BAD_COMPONENT: &str = "read/bad-component";

/// The components of the index, in turn: entity, attribute, value and t.
fn letters_of(order: Order) -> &'static [u8] {
    match order {
        Order::Eavt => b"eavt",
        Order::Aevt => b"aevt",
        Order::Avet => b"avet",
        Order::Vaet => b"vaet",
    }
}

impl Sight<'_> {
    /// The probe that the components give. The first of them is the third member of its command.
    pub(crate) fn probe(&self, order: Order, forms: &[Edn]) -> Result<Probe, ReadStop> {
        let letters = letters_of(order);
        if forms.len() > letters.len() {
            return Err(ReadStop::Refused("read/not-a-command", 0));
        }
        let mut probe = Probe {
            order,
            e: None,
            a: None,
            v: None,
            t: None,
        };
        for (index, (letter, form)) in letters.iter().zip(forms).enumerate() {
            self.put(&mut probe, *letter, form, index.saturating_add(2))?;
        }
        Ok(probe)
    }

    fn put(&self, probe: &mut Probe, letter: u8, form: &Edn, at: usize) -> Result<(), ReadStop> {
        match letter {
            b'e' => probe.e = Some(self.entity_at(form, at)?),
            b'a' => probe.a = Some(self.attribute(probe.order, form, at)?.id),
            b'v' => probe.v = Some(self.value_at(self.kind_behind(probe), form, at)?),
            _ => probe.t = Some(or_refused(t_in(form), BAD_COMPONENT, at)?),
        }
        Ok(())
    }

    fn entity_at(&self, form: &Edn, at: usize) -> Result<u64, ReadStop> {
        or_refused(self.entity(form)?, BAD_COMPONENT, at)
    }

    /// The attribute that a keyword names, which the index has to hold.
    fn attribute(&self, order: Order, form: &Edn, at: usize) -> Result<Attribute<'_>, ReadStop> {
        let named = match form {
            Edn::Key(name) => attribute_named(self.facts, name.as_str()),
            _ => None,
        };
        let attribute = or_refused(named, BAD_COMPONENT, at)?;
        if covers(self.facts, order, attribute.id) {
            Ok(attribute)
        } else {
            Err(ReadStop::Refused("read/not-in-index", at))
        }
    }

    /// The type of the attribute that was read; where none was, the next value is an entity.
    fn kind_behind(&self, probe: &Probe) -> u64 {
        match probe.a.and_then(|a| attribute_of(self.facts, a)) {
            Some(attribute) => attribute.kind,
            None => TYPE_REF,
        }
    }

    fn value_at(&self, kind: u64, form: &Edn, at: usize) -> Result<Value, ReadStop> {
        or_refused(self.value(kind, form)?, BAD_COMPONENT, at)
    }

    /// A value of the type. Entities stand there by their names.
    fn value(&self, kind: u64, form: &Edn) -> Result<Option<Value>, Memory> {
        if kind == TYPE_REF {
            Ok(self.entity(form)?.map(|e| Value::Ref(e)))
        } else {
            value_in(kind, form)
        }
    }

    /// The values of an attribute from the first one on and before the second. Nil leaves an end open.
    pub(crate) fn range(&self, name: &Edn, start: &Edn, end: &Edn) -> Result<Range, ReadStop> {
        let attribute = self.attribute(Order::Avet, name, 1)?;
        let from = self.end(attribute.kind, start, 2)?;
        let to = self.end(attribute.kind, end, 3)?;
        Ok(Range::Between(attribute.id, from, to))
    }

    fn end(&self, kind: u64, form: &Edn, at: usize) -> Result<Option<Value>, ReadStop> {
        match form {
            Edn::Nil => Ok(None),
            _ => Ok(Some(self.value_at(kind, form, at)?)),
        }
    }
}
