//! What a transaction is decided over: a history, as far as its facts are asked for. This crate has the trait alone, and a
//! law of the lists that it gives. The engine of transactions depends on it, and so on no index, no snapshot and no clock.
#![tactic(auto)]

ghost use Rattle.std.specs.Prelude.{◌≡◌, List, IfOk};
ghost use Rattle.fb_values.specs.declared.facts.Entry.{Entry};
ghost use Rattle.fb_model.specs.History as model;
ghost use Rattle.fb_model.specs.Facts as facts;
ghost use Rattle.fb_facts.specs.FactLists as fact_lists;

mod laws;

use fb_memory::Memory;
use fb_values::{Datoms, Value};
pub use laws::the_lists_are_the_rising_ones;

/// Tells of a history which facts hold in it. What holds is asked by a search and takes no memory; lists of facts are
/// new ones, whose texts are shared.
pub trait Facts {
    /// The history that it answers for.
    ghost history: { Self → List Entry };

    /// The t of the last entry.
    fn basis(&self) -> u32
        ensures { result ≡ model.basis (history self.now) };

    /// The greatest n of a user entity that is the entity of a datom, or 0.
    fn issued(&self) -> u64
        ensures { result ≡ model.users_issued (history self.now) };

    /// The instant of the last entry.
    fn last_instant(&self) -> i64
        ensures { result ≡ model.last_instant (history self.now) };

    /// Whether the triple holds.
    fn holds(&self, e: u64, a: u64, v: &Value) -> bool
        ensures { result ≡ facts.holds (history self.now) e a v.now };

    /// The least entity that has the value of the attribute.
    fn holder(&self, a: u64, v: &Value) -> Option<u64>
        ensures { result ≡ facts.holder (facts.facts (history self.now)) a v.now };

    /// The values of the entity under the attribute, in their order.
    fn values_of(&self, e: u64, a: u64) -> Result<Vec<Value>, Memory>
        ensures { IfOk result (λ values. values.items ≡ fact_lists.values_of (history self.now) e a) };

    /// The facts of the entity, by attribute and value.
    fn facts_of(&self, e: u64) -> Result<Datoms, Memory>
        ensures { IfOk result (λ datoms. datoms ≡ fact_lists.facts_of (history self.now) e) };

    /// The facts whose value is the entity, by attribute and entity.
    fn refs_to(&self, e: u64) -> Result<Datoms, Memory>
        ensures { IfOk result (λ datoms. datoms ≡ fact_lists.refs_to (history self.now) e) };

    /// The facts of the attribute, by entity and value.
    fn facts_under(&self, a: u64) -> Result<Datoms, Memory>
        ensures { IfOk result (λ datoms. datoms ≡ fact_lists.facts_under (history self.now) a) };
}
