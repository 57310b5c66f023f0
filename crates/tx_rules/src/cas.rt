//! Compare and set.
ghost use Rattle.std.specs.Prelude.{◌≡◌, map, IfOk};
ghost use Rattle.std.specs.List.{list_any};
ghost use Rattle.std.specs.Option.{option_copied};
ghost use Rattle.tx_model.specs.ChangeRules as rules;
ghost use Rattle.tx_asks.specs.Acts.{model_act, is_cas_of_many as model_is_cas_of_many};
ghost use Rattle.tx_rules.specs.Cas as model;

use fb_facts::Facts;
use fb_memory::Memory;
use fb_values::Value;
use tx_asks::Act;

/// The first form with a cas of an attribute of cardinality many.
pub fn first_of_many(forms: &[Vec<Act<'_>>]) -> Option<usize>
    ensures { result ≡ model.first_of_many (model.acts_of forms.now) }
{
    for (place, form) in forms.iter().enumerate() {
        if has_cas_of_many(form) {
            return Some(place);
        }
    }
    None
}

fn has_cas_of_many(form: &[Act<'_>]) -> bool
    ensures { result ≡ list_any model_is_cas_of_many (map model_act form.now) }
{
    for act in form {
        if is_cas_of_many(act) {
            return true;
        }
    }
    false
}

fn is_cas_of_many(act: &Act<'_>) -> bool
    ensures { result ≡ model_is_cas_of_many (model_act act.now) }
{
    match act {
        Act::Compares(comparison) => comparison.get().attribute.many,
        _ => false,
    }
}

/// The first form with a cas that finds another value than its old one.
pub fn first_failed<F: Facts>(forms: &[Vec<Act<'_>>], facts: &F) -> Result<Option<usize>, Memory>
    ensures { IfOk result
        (λ place. place ≡ model.first_failed (F.history facts.now) (model.acts_of forms.now)) }
{
    for (place, form) in forms.iter().enumerate() {
        if has_failed(form, facts)? {
            return Ok(Some(place));
        }
    }
    Ok(None)
}

fn has_failed<F: Facts>(form: &[Act<'_>], facts: &F) -> Result<bool, Memory>
    ensures { IfOk result
        (λ b. b ≡ list_any (model.finds_another (F.history facts.now)) (map model_act form.now)) }
{
    for act in form {
        if finds_another(act, facts)? {
            return Ok(true);
        }
    }
    Ok(false)
}

fn finds_another<F: Facts>(act: &Act<'_>, facts: &F) -> Result<bool, Memory>
    ensures { IfOk result (λ b. b ≡ model.finds_another (F.history facts.now) (model_act act.now)) }
{
    let Act::Compares(comparison) = act else {
        return Ok(false);
    };
    let comparison = comparison.get();
    let values = facts.values_of(comparison.e, comparison.attribute.id)?;
    Ok(!is_value(values.first(), &comparison.old))
}

fn is_value(present: Option<&Value>, old: &Option<Value>) -> bool
    ensures { result ≡ rules.is_value (option_copied present.entry) old.now }
{
    match (present, old) {
        (None, None) => true,
        (Some(v), Some(w)) => *v == *w,
        (None, Some(_)) => false,
        (Some(_), None) => false,
    }
}
