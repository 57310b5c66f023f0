//! Trees to be written.
ghost use Rattle.std.specs.Prelude.{◌≤◌, ◌^◌, IfOk};
ghost use Rattle.seg_codec.specs.Trees.{AreStorable};
ghost use Rattle.seg_store.specs.Trees.{HaveStorableDatoms};

use fb_memory::Memory;
use fb_text::Text;
use fb_values::{Datom, Value};
use seg_tree::Roots;
use std::alloc::Global;

/// Trees of one datom, which EAVT alone has: the entity with the number 1 of users has the documentation "hi".
pub(crate) fn hi_trees(alloc: Global, first_id: u64) -> Result<Roots, Memory>
    requires { first_id ≤ 2 ^ 61 }
    ensures storable { IfOk result HaveStorableDatoms }
    ensures values { IfOk result AreStorable }
{
    let hi = Datom {
        e: 0x0000_1000_0000_0001,
        a: 7,
        v: Value::Str(Text::of(alloc, "hi")?),
        t: 1,
        added: true,
    };
    let mut eavt = Vec::new(alloc);
    eavt.push(hi)?;
    Roots::of(
        alloc,
        eavt,
        Vec::new(alloc),
        Vec::new(alloc),
        Vec::new(alloc),
        first_id,
    )
}
