//! The members so far of a set that is open, or the keys so far of a map.
ghost use Rattle.std.specs.Prelude.{◌≡◌, true, not, [], ◌∷◌, ◌++◌, IfOk, OnOk};
ghost use Rattle.edn_form.specs.View.{form_of};
ghost use Rattle.edn_model.specs.Form as model;
ghost use Rattle.edn_model.specs.Likeness.{alike, any};
ghost use Rattle.edn_duplicates.specs.Code.{IsCode};
ghost use Rattle.edn_duplicates.specs.Inside.{IsDistinctInside};
ghost use Rattle.edn_duplicates.specs.Order.{token_cmp};

use crate::code::{code, only_token};
use crate::coded::Coded;
use crate::token::CodeToken;
use edn_form::Edn;
use fb_memory::Memory;
use std::alloc::Global;
use std::collections::BTreeSet;

/// Up to how many codes are compared one by one.
const FEW: usize = 8;

/// The codes of the forms so far. Most maps and sets are small, and a few codes in a row cost less than a tree. Beyond
/// them one more costs a logarithm of comparisons.
#[derive(Drop)]
pub struct FormCodes {
    /// None, once there are many.
    few: Vec<Coded>,
    many: BTreeSet<Coded>,
}

impl FormCodes {
    ghost use Rattle.edn_duplicates.specs.FormCodes.{codes_in, held, HasCodesOf, HasOneMore};

    pub fn new(alloc: Global) -> FormCodes
        ensures { HasCodesOf model.no_forms result }
    {
        let (few, many) = (Vec::new(alloc), BTreeSet::new(alloc));
        FormCodes { few, many }
    }

    /// Adds a form, by its code, and answers whether none alike to it was there before. After an error some forms may
    /// be missing.
    fn say(&mut self, code: Vec<CodeToken>) -> Result<bool, Memory>
        ensures fresh { (fs : model.Forms) (f : model.Form) → HasCodesOf fs self.old
            → IsCode token_cmp f code.items → IsDistinctInside f
            → IfOk result (λ fresh. fresh ≡ not (any (alike f) fs)) }
        ensures said { (fs : model.Forms) (f : model.Form) → HasCodesOf fs self.old
            → IsCode token_cmp f code.items
            → IfOk result (λ fresh. HasCodesOf (model.with_last fs f) self.new) }
    {
        self.insert(Coded::Many(code))
    }

    /// Adds a form by a code of one token, which needs no list.
    fn say_token(&mut self, token: CodeToken) -> Result<bool, Memory>
        ensures fresh { (fs : model.Forms) (f : model.Form) → HasCodesOf fs self.old
            → IsCode token_cmp f (token ∷ []) → IsDistinctInside f
            → IfOk result (λ fresh. fresh ≡ not (any (alike f) fs)) }
        ensures said { (fs : model.Forms) (f : model.Form) → HasCodesOf fs self.old
            → IsCode token_cmp f (token ∷ [])
            → IfOk result (λ fresh. HasCodesOf (model.with_last fs f) self.new) }
    {
        self.insert(Coded::One(token))
    }

    /// Adds a form, and answers whether none alike to it was there before. After an error some forms may be missing.
    pub fn insert_form(&mut self, alloc: Global, form: &Edn) -> Result<bool, Memory>
        ensures fresh { (fs : model.Forms) → HasCodesOf fs self.old
            → IsDistinctInside (form_of form.now)
            → IfOk result (λ fresh. fresh ≡ not (any (alike (form_of form.now)) fs)) }
        ensures said { (fs : model.Forms) → HasCodesOf fs self.old
            → IfOk result (λ fresh. HasCodesOf (model.with_last fs (form_of form.now)) self.new) }
    {
        match only_token(form)? {
            Some(token) => self.say_token(token),
            None => self.say(code(alloc, form)?),
        }
    }

    /// Adds a code, and answers whether it was not there before.
    fn insert(&mut self, code: Coded) -> Result<bool, Memory>
        ensures fresh { IfOk result (λ fresh. fresh ≡ not (held code (codes_in self.old))) }
        ensures added { OnOk result (HasOneMore code (codes_in self.old) (codes_in self.new)) }
    {
        if self.few.as_slice().contains(&code) {
            return Ok(false);
        }
        if self.few.len() < FEW && self.many.is_empty() {
            self.add_few(code)
        } else {
            self.add_many(code)
        }
    }

    /// Adds a code to the few, for all of which the first takes the memory.
    fn add_few(&mut self, code: Coded) -> Result<bool, Memory>
        ensures fresh { IfOk result (λ fresh. fresh ≡ true) }
        ensures few { OnOk result (self.new.few.items ≡ self.old.few.items ++ code ∷ []) }
        ensures many { self.new.many ≡ self.old.many }
    {
        self.few.reserve(FEW.saturating_sub(self.few.len()))?;
        self.few.push(code)?;
        Ok(true)
    }

    /// Adds a code to the many, after the few.
    fn add_many(&mut self, code: Coded) -> Result<bool, Memory>
        ensures fresh { IfOk result (λ fresh. fresh ≡ not (held code (codes_in self.old))) }
        ensures added { OnOk result (HasOneMore code (codes_in self.old) (codes_in self.new)) }
    {
        self.move_few()?;
        let fresh = self.many.insert(code)?;
        Ok(fresh)
    }

    /// Moves the few among the many.
    fn move_few(&mut self) -> Result<(), Memory>
        ensures few { OnOk result (self.new.few.items ≡ []) }
        ensures same { OnOk result ((q : Coded)
            → held q (codes_in self.new) ≡ held q (codes_in self.old)) }
    {
        while let Some(code) = self.few.pop() {
            self.many.insert(code)?;
        }
        Ok(())
    }
}
