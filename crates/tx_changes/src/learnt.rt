//! The values that were looked up, so that no question is asked twice.
ghost use Rattle.std.specs.Prelude.{◌≡◌, OnOk, nat_lt};
ghost use Rattle.fb_numbers.specs.Numbers.{user_number as model_user_number};
ghost use Rattle.fb_model.specs.History.{users_issued};
ghost use Rattle.fb_facts.specs.FactLists.{values_of};
ghost use Rattle.tx_changes.specs.Asked.{asking_holds, known_values, KnowsValues};

use fb_facts::{Facts, the_lists_are_the_rising_ones};
use fb_memory::Memory;
use fb_model::{facts_are_what_holds, new_users_have_no_facts};
use fb_numbers::user_number;
use fb_values::Value;
use std::collections::BTreeMap;
use tx_asks::Asking;

/// All values of entities under attributes, by entity and attribute.
pub type Learnt = BTreeMap<(u64, u64), Vec<Value>>;

/// The values of the entity under the attribute are known from now on.
pub fn learn<F: Facts>(learnt: &mut Learnt, facts: &F, e: u64, a: u64) -> Result<(), Memory>
    requires { KnowsValues (F.history facts.now) learnt.now }
    ensures known { OnOk result (KnowsValues (F.history facts.now) learnt.new) }
    ensures learnt { OnOk result
        (known_values learnt.new e a ≡ values_of (F.history facts.now) e a) }
{
    let pair = (e, a);
    if learnt.contains_key(&pair) {
        return Ok(());
    }
    learnt.insert(pair, facts.values_of(e, a)?)?;
    Ok(())
}

/// Whether the triple of the asking holds. The facts are searched only where its entity is not new and its values were not
/// looked up before.
pub fn holds<F: Facts>(learnt: &Learnt, facts: &F, issued: u64, asking: &Asking) -> bool
    requires issued { issued ≡ users_issued (F.history facts.now) }
    requires known { KnowsValues (F.history facts.now) learnt.now }
    ensures { result ≡ asking_holds (F.history facts.now) asking.now }
{
    the_lists_are_the_rising_ones();
    facts_are_what_holds();
    new_users_have_no_facts();
    if is_new(issued, asking.e) {
        return false;
    }
    match learnt.get(&(asking.e, asking.a)) {
        Some(values) => values.contains(&asking.v),
        None => facts.holds(asking.e, asking.a, &asking.v),
    }
}

/// Whether it is a user entity after those that are issued, of which nothing holds.
pub fn is_new(issued: u64, e: u64) -> bool
    ensures { result ≡ nat_lt issued (model_user_number e) }
{
    issued < user_number(e)
}
