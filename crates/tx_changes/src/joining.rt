//! The triples in their order, each with the forms that ask it.
ghost use Rattle.std.specs.Prelude.{◌≡◌, IfOk};
ghost use Rattle.fb_schema.specs.Described.{SchemaStands};
ghost use Rattle.tx_model.specs.Tempids.{db_of};
ghost use Rattle.tx_model.specs.Transaction.{Transaction};
ghost use Rattle.tx_asks.specs.Acts.{AreActs};
ghost use Rattle.tx_asks.specs.Triples.{AreTriples};
ghost use Rattle.tx_sweep.specs.Sweep.{acts_of};

use crate::collect::{Notes, notes_of};
use crate::folding::folded;
use crate::noted::cmp_triples;
use fb_facts::Facts;
use fb_memory::Memory;
use fb_schema::Schema;
use std::alloc::Global;
use tx_asks::{Act, Triple};

/// All that the forms ask, triple by triple, by entity, attribute and value.
pub fn triples<F: Facts>(
    alloc: Global,
    forms: &[Vec<Act<'_>>],
    facts: &F,
    schema: &Schema,
) -> Result<Vec<Triple>, Memory>
    requires { SchemaStands schema.now (F.history facts.now) }
    ensures { IfOk result (λ triples. (tx : Transaction) → tx.db ≡ db_of (F.history facts.now)
        → AreActs (acts_of forms.now) tx → AreTriples tx triples.items) }
{
    let issued = facts.issued();
    let Notes { mut noted, learnt } = notes_of(alloc, forms, issued, facts, schema)?;
    noted.sort_by(|x, y| cmp_triples(x, y))?;
    folded(alloc, noted, &learnt, issued, facts)
}
