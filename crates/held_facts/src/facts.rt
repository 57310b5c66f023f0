//! What a held history answers of its facts. Of a user entity after the last one nothing is sought.
ghost use Rattle.std.specs.Prelude.{◌≡◌, nat_lt};
ghost use Rattle.fb_numbers.specs.Numbers.{user_number as model_user_number};
ghost use Rattle.fb_model.specs.History.{users_issued};

use crate::held::Held;
use fb_facts::{Facts, the_lists_are_the_rising_ones};
use fb_memory::Memory;
use fb_model::new_users_have_no_facts;
use fb_numbers::user_number;
use fb_values::{Datoms, Value};

impl Facts for Held {
    ghost history = { λ h. h };

    fn basis(&self) -> u32 {
        self.basis
    }

    fn issued(&self) -> u64 {
        self.users
    }

    fn last_instant(&self) -> i64 {
        self.instant
    }

    fn holds(&self, e: u64, a: u64, v: &Value) -> bool {
        new_users_have_no_facts();
        if self.is_new(e) {
            return false;
        }
        self.kept.holds(e, a, v)
    }

    fn holder(&self, a: u64, v: &Value) -> Option<u64> {
        self.kept.holder(a, v)
    }

    fn values_of(&self, e: u64, a: u64) -> Result<Vec<Value>, Memory> {
        the_lists_are_the_rising_ones();
        new_users_have_no_facts();
        if self.is_new(e) {
            return Ok(Vec::new(self.alloc));
        }
        self.kept.values_of(self.alloc, e, a)
    }

    fn facts_of(&self, e: u64) -> Result<Datoms, Memory> {
        Ok(Datoms::of(self.kept.facts_of(self.alloc, e)?))
    }

    fn refs_to(&self, e: u64) -> Result<Datoms, Memory> {
        Ok(Datoms::of(self.kept.refs_to(self.alloc, e)?))
    }

    fn facts_under(&self, a: u64) -> Result<Datoms, Memory> {
        Ok(Datoms::of(self.kept.facts_under(self.alloc, a)?))
    }
}

impl Held {
    /// Whether it is a user entity that no datom is about yet.
    fn is_new(&self, e: u64) -> bool
        ensures { result ≡ nat_lt (users_issued self.now) (model_user_number e) }
    {
        self.users < user_number(e)
    }
}
