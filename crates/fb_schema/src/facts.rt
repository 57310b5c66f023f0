//! The facts of a schema in their order, found by their entities.
ghost use Rattle.std.specs.Prelude.{◌≡◌, ◌++◌, [], ◌∷◌, not, ◌==◌, nat_eq, filter, IfOk, Some};
ghost use Rattle.std.specs.List.{find};
ghost use Rattle.std.specs.Ordering.{nat_cmp};
ghost use Rattle.shared_map.specs.Entries.{get};
ghost use Rattle.fb_values.specs.declared.facts.Datom.{Datom};
ghost use Rattle.fb_model.specs.Facts.{is_of as model_is_of, standing};
ghost use Rattle.fb_model.proofs.Triples.{not_followed};
ghost use Rattle.fb_schema.specs.Numbered.{is_number_of, numbers_at as model_numbers_at};

use fb_chunks::Share;
use fb_memory::Memory;
use fb_values::Datom;
use shared_map::SharedMap;
use std::alloc::Global;
use std::marker::Model;

#[derive(Drop)]
pub struct Facts {
    alloc: Global,
    /// The number of the next fact: each has a greater one than those before it.
    next: u64,
    by_number: SharedMap<u64, Datom>,
    /// The numbers of each entity's facts, in order.
    numbers: SharedMap<u64, Vec<u64>>,
}

impl Model for Facts {
    ghost use Rattle.std.specs.Prelude.{List};
    ghost use Rattle.std.specs.Map.{values_of};
    ghost use Rattle.fb_values.specs.declared.facts.Datom.{Datom};
    ghost use Rattle.fb_schema.specs.Numbered.{IsKept};

    ghost Value = { List Datom };

    ghost view = { λ f. values_of f.by_number };

    ghost invariant = { λ f. IsKept f.next f.by_number f.numbers };
}

impl Facts {
    pub fn none(alloc: Global) -> Result<Facts, Memory>
        ensures { IfOk result (λ facts. facts ≡ []) }
    {
        let (by_number, numbers) = (SharedMap::new(alloc)?, SharedMap::new(alloc)?);
        Ok(Facts {
            alloc,
            next: 0,
            by_number,
            numbers,
        })
    }

    /// The same facts, at the cost of two reference counts.
    pub fn share(&self) -> Result<Facts, Memory>
        ensures { IfOk result (λ facts. facts ≡ self.now) }
    {
        let (by_number, numbers) = (self.by_number.share()?, self.numbers.share()?);
        Ok(Facts {
            alloc: self.alloc,
            next: self.next,
            by_number,
            numbers,
        })
    }

    /// Those of an entity.
    pub fn of_entity(&self, e: u64) -> Result<Vec<Datom>, Memory>
        ensures { IfOk result (λ own. own.items ≡ filter (λ d. nat_eq d.e e) self.now) }
    {
        let mut own = Vec::new(self.alloc);
        for number in numbers_at(&self.numbers, e) {
            push_fact(&mut own, &self.by_number, *number)?;
        }
        Ok(own)
    }

    /// What holds after one more datom.
    pub fn with(&self, d: &Datom) -> Result<Facts, Memory>
        ensures { IfOk result (λ facts. facts ≡ standing (self.now ++ d.now ∷ [])) }
    {
        let others = self.of_other_triples(d)?;
        if d.added { others.and(d) } else { Ok(others) }
    }

    /// Without the fact of the datom's triple.
    fn of_other_triples(&self, d: &Datom) -> Result<Facts, Memory>
        ensures others { IfOk result
            (λ facts. facts ≡ filter (not_followed (d.now ∷ [])) self.now) }
        ensures standing { standing self.now ≡ self.now }
    {
        let numbers = numbers_at(&self.numbers, d.e);
        let Some(number) = number_of(&self.by_number, numbers, d) else {
            return self.share();
        };
        let left = left_of(self.alloc, numbers, number)?;
        Ok(Facts {
            alloc: self.alloc,
            next: self.next,
            by_number: self.by_number.without(&number)?,
            numbers: self.numbers.with(d.e, left)?,
        })
    }

    /// With a fact at the end.
    fn and(&self, d: &Datom) -> Result<Facts, Memory>
        requires { standing (self.now ++ d.now ∷ []) ≡ self.now ++ d.now ∷ [] }
        ensures { IfOk result (λ facts. facts ≡ self.now ++ d.now ∷ []) }
    {
        if self.next == u64::MAX {
            return Err(Memory);
        }
        let numbers = and_number(self.alloc, numbers_at(&self.numbers, d.e), self.next)?;
        Ok(Facts {
            alloc: self.alloc,
            next: self.next + 1,
            by_number: self.by_number.with(self.next, d.copy()?)?,
            numbers: self.numbers.with(d.e, numbers)?,
        })
    }
}

fn numbers_at(numbers: &SharedMap<u64, Vec<u64>>, e: u64) -> &[u64]
    ensures { result.now ≡ model_numbers_at numbers.now e }
{
    match numbers.get(&e) {
        Some(numbers) => numbers.as_slice(),
        None => &[],
    }
}

fn push_fact(
    own: &mut Vec<Datom>,
    by_number: &SharedMap<u64, Datom>,
    number: u64,
) -> Result<(), Memory>
    ensures { (x : Datom) → get nat_cmp by_number.now number ≡ Some x
        → IfOk result (λ _. own.new.items ≡ own.old.items ++ x ∷ []) }
{
    if let Some(d) = by_number.get(&number) {
        own.push(d.copy()?)?;
    }
    Ok(())
}

/// The number of the fact of the datom's triple, among some numbers.
fn number_of(by_number: &SharedMap<u64, Datom>, numbers: &[u64], d: &Datom) -> Option<u64>
    ensures { result ≡ find (is_number_of d.now by_number.now) numbers.now }
{
    numbers
        .iter()
        .copied()
        .find(|number| restates(by_number, *number, d))
}

/// Whether the datom is of the triple of the fact with the number.
fn restates(by_number: &SharedMap<u64, Datom>, number: u64, d: &Datom) -> bool
    ensures { result ≡ is_number_of d.now by_number.now number }
{
    match by_number.get(&number) {
        Some(x) => is_of(x, d),
        None => false,
    }
}

/// Whether the second datom is of the triple of the first.
fn is_of(x: &Datom, d: &Datom) -> bool
    ensures { result ≡ model_is_of x.now.e x.now.a x.now.v d.now }
{
    d.e == x.e && d.a == x.a && d.v == x.v
}

fn left_of(alloc: Global, numbers: &[u64], number: u64) -> Result<Vec<u64>, Memory>
    ensures { IfOk result (λ left. left.items ≡ filter (λ n. not (n == number)) numbers.now) }
{
    Ok(
        numbers
            .iter()
            .copied()
            .filter(|n| *n != number)
            .collect(alloc)?,
    )
}

fn and_number(alloc: Global, numbers: &[u64], number: u64) -> Result<Vec<u64>, Memory>
    ensures { IfOk result (λ all. all.items ≡ numbers.now ++ number ∷ []) }
{
    let mut all = numbers.to_vec(alloc)?;
    all.push(number)?;
    Ok(all)
}
