//! Changes by their attributes: those of one are found by a search, however many attributes there are.
ghost use Rattle.std.specs.Prelude.{◌≡◌, ◌∷◌, [], ◌++◌, ℕ, OnOk, IfOk, ◌==◌, if◌then◌else◌};
ghost use Rattle.tx_after.specs.Parts.{part_at, AreByAttribute};

use fb_memory::Memory;
use fb_values::Datom;
use std::alloc::Global;
use std::collections::BTreeMap;

/// The changes under each attribute, in the order of the changes.
#[derive(Drop)]
pub struct ByAttribute {
    pub parts: BTreeMap<u64, Vec<Datom>>,
}

impl ByAttribute {
    /// Copies of the changes, by their attributes.
    pub fn of(alloc: Global, changes: &[Datom]) -> Result<ByAttribute, Memory>
        ensures { IfOk result (λ by. AreByAttribute by.parts changes.now) }
    {
        let mut parts = BTreeMap::new(alloc);
        for d in changes {
            put(alloc, &mut parts, d.copy()?)?;
        }
        Ok(ByAttribute { parts })
    }

    /// The changes under the attribute.
    pub fn under(&self, a: u64) -> &[Datom]
        ensures { result.now ≡ part_at self.now.parts a }
    {
        match self.parts.get(&a) {
            Some(part) => part.as_slice(),
            None => &[],
        }
    }
}

/// Puts the change after those of its attribute.
fn put(alloc: Global, parts: &mut BTreeMap<u64, Vec<Datom>>, d: Datom) -> Result<(), Memory>
    ensures { OnOk result
        ((a : ℕ) → part_at parts.new a ≡ part_at parts.old a ++ (if d.a == a then d ∷ [] else [])) }
{
    let a = d.a;
    let mut part = parts.remove(&a).unwrap_or(Vec::new(alloc));
    part.push(d)?;
    parts.insert(a, part)?;
    Ok(())
}
