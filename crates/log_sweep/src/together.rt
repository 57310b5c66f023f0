//! All datoms together: the laws that compare them with one another.
ghost use Rattle.std.specs.Prelude.{IfOk, IsTrue, ◌∷◌};
ghost use Rattle.fb_model.specs.History.{said};
ghost use Rattle.log_sweep.specs.Groups.{lent, Keeps, KeepTogether, KeepPlaces};
ghost use Rattle.log_sweep.specs.declared.law.Law.TheVariants.{OneHolderEach};

use crate::gathered::{datoms_of, unique_ones};
use crate::law::Law;
use crate::sweep::keeps;
use fb_memory::Memory;
use fb_schema::Schema;
use fb_values::{Datom, Entry};
use std::alloc::Global;

/// Whether the datoms of the entries keep the laws 6 to 8, where the schema is that after the last entry, and promises
/// what each one before it does.
pub fn keep_together(
    alloc: Global,
    schema: &Schema,
    first: &Entry,
    entries: &[Entry],
) -> Result<bool, Memory>
    ensures { IfOk result (λ keep. IsTrue keep
        → KeepTogether schema.now (said (first.now ∷ entries.now))) }
{
    let mut datoms = datoms_of(alloc, first, entries)?;
    let keep_holders = keep_holders(alloc, schema, &datoms)?;
    if !keep_holders {
        return Ok(false);
    }
    keep_values_and_changes(schema, &mut datoms)
}

/// Law 8, of the datoms under unique attributes alone.
fn keep_holders(alloc: Global, schema: &Schema, datoms: &[&Datom]) -> Result<bool, Memory>
    ensures { IfOk result (λ keep. IsTrue keep → Keeps OneHolderEach schema.now (lent datoms.now)) }
{
    let mut unique = unique_ones(alloc, schema, datoms)?;
    keeps(Law::OneHolderEach, schema, &mut unique)
}

/// The laws 7 and 6. Their orders begin alike, so that the datoms are almost in the second one when they are in the first.
fn keep_values_and_changes(schema: &Schema, datoms: &mut Vec<&Datom>) -> Result<bool, Memory>
    ensures { IfOk result (λ keep. IsTrue keep → KeepPlaces schema.now (lent datoms.old.items)) }
{
    let keep_values = keeps(Law::OneValueEach, schema, datoms)?;
    if !keep_values {
        return Ok(false);
    }
    keeps(Law::ChangesAlone, schema, datoms)
}
