//! The attribute that a name names.
ghost use Rattle.std.specs.Prelude.{◌≡◌};
ghost use Rattle.fb_checks.specs.Checks as model;

use fb_schema::Schema;
use fb_text::Text;

pub fn id_of(schema: &Schema, name: &Text) -> Option<u64>
    ensures { result ≡ model.id_of schema.now name.now }
{
    match schema.named(name) {
        Some(attribute) => Some(attribute.id),
        None => None,
    }
}
