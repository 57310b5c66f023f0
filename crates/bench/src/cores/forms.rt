//! The transactions as forms.
use anyhow::{Result, bail};
use edn_core::read_form;
use edn_form::{Edn, Items, Pairs};
use fb_text::Text;
use std::alloc::Global;

/// A number with an index, and a text.
pub(crate) const SCHEMA: &str = "[
    {:db/ident :b/num :db/valueType :db.type/long :db/cardinality :db.cardinality/one :db/index true}
    {:db/ident :b/text :db/valueType :db.type/string :db/cardinality :db.cardinality/one}]";

/// Their keywords.
#[derive(Drop)]
pub(crate) struct Names {
    num: Text,
    text: Text,
}

impl Names {
    pub(crate) fn new(alloc: Global) -> Result<Names> {
        Ok(Names {
            num: Text::of(alloc, "b/num")?,
            text: Text::of(alloc, "b/text")?,
        })
    }

    /// `[{:b/num 7 :b/text "text 7"}]`
    pub(crate) fn new_entity(&self, alloc: Global, n: u32) -> Result<Edn> {
        let mut pairs = Vec::with_capacity(alloc, 2)?;
        self.add_pairs(alloc, n, &mut pairs)?;
        let mut forms = Vec::with_capacity(alloc, 1)?;
        forms.push(Edn::Map(Pairs::of(pairs)))?;
        Ok(Edn::Vector(Items::of(forms)))
    }

    fn add_pairs(&self, alloc: Global, n: u32, pairs: &mut Vec<(Edn, Edn)>) -> Result<()> {
        pairs.push((Edn::Key(self.num.copy()?), Edn::Int(i64::from(n))))?;
        let text = text_of(alloc, n)?;
        pairs.push((Edn::Key(self.text.copy()?), Edn::Str(text)))?;
        Ok(())
    }
}

fn text_of(alloc: Global, n: u32) -> Result<Text> {
    let text = format!(in alloc; "text {n}")?;
    Ok(Text::of(alloc, text.as_str())?)
}

pub(crate) fn schema(alloc: Global) -> Result<Edn> {
    match read_form(alloc, SCHEMA.as_bytes(), 0) {
        Ok(Some((form, _))) => Ok(form),
        _ => bail!("the schema is no EDN"),
    }
}
