//! Added values that fail the test of their attribute.
ghost use Rattle.std.specs.Prelude.{◌≡◌, ◌&&◌, not, nat_eq};
ghost use Rattle.std.specs.List.{list_any};
ghost use Rattle.fb_checks.specs.Checks.{pred_of, fails};

use crate::check::Check;
use crate::names::id_of;
use crate::tests::AttrTest;
use fb_schema::Schema;
use fb_values::Datom;

/// Whether an added value fails one of the tests.
pub fn fails_any<T: Check>(preds: &[AttrTest<T>], schema: &Schema, changes: &[Datom]) -> bool
    ensures { result ≡ list_any
        (λ pred. list_any (λ d. fails schema.now d (pred_of T.passes pred)) changes.now) preds.now }
{
    for pred in preds {
        if fails_one(pred, schema, changes) {
            return true;
        }
    }
    false
}

fn fails_one<T: Check>(pred: &AttrTest<T>, schema: &Schema, changes: &[Datom]) -> bool
    ensures { result
        ≡ list_any (λ d. fails schema.now d (pred_of T.passes pred.now)) changes.now }
{
    match id_of(schema, &pred.attr) {
        Some(a) => fails_under(&pred.test, a, changes),
        None => false,
    }
}

/// Whether a value that is added under the attribute fails the test.
fn fails_under<T: Check>(test: &T, a: u64, changes: &[Datom]) -> bool
    ensures { result
        ≡ list_any (λ d. d.added && nat_eq d.a a && not (T.passes test.now d)) changes.now }
{
    for d in changes {
        if d.added && d.a == a && !test.test(d) {
            return true;
        }
    }
    false
}
