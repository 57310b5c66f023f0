//! What stays as it is.
ghost use Rattle.std.specs.Prelude.{◌≡◌};
ghost use Rattle.tx_rules.specs.Fixed as model;

use crate::places::{earlier, recorded_at};
use fb_numbers::{IDENT, INDEX, IS_COMPONENT, TX_INSTANT, VALUE_TYPE, is_builtin};
use fb_schema::Schema;
use tx_asks::Triple;

/// The first form that changes what stays as it is.
pub fn first_fixed(triples: &[Triple], schema: &Schema) -> Option<usize>
    ensures { result ≡ model.first_fixed schema.now triples.now }
{
    let mut first = None;
    for triple in triples {
        if is_fixed(schema, triple) {
            first = earlier(first, recorded_at(triple));
        }
    }
    first
}

fn is_fixed(schema: &Schema, triple: &Triple) -> bool
    ensures { result ≡ model.is_fixed schema.now triple.now }
{
    let a = triple.a;
    ((a == IDENT || a == VALUE_TYPE || a == IS_COMPONENT) && schema.is_attribute(triple.e))
        || (IDENT <= a && a <= INDEX && is_builtin(triple.e))
        || (a == TX_INSTANT && triple.holds)
}
