//! Values, datoms, and the entries of a history.
ghost use Rattle.std.specs.Prelude.{◌≡◌, ◌++◌, ◌∷◌, [], length, IfOk, OnOk, OnErr, ◌==◌};

use fb_memory::Memory;
use fb_text::Text;
use std::cmp::Ordering;
use std::marker::Model;

/// What a datom says of its entity. The types are in the order in which values of different types compare.
#[derive(Drop)]
pub enum Value {
    Keyword(Text),
    Str(Text),
    Bool(bool),
    Long(i64),
    /// The number of an entity.
    Ref(u64),
    /// In milliseconds from 1970-01-01T00:00:00Z.
    Instant(i64),
    Uuid(u128),
    Symbol(Text),
    Uri(Text),
}

impl PartialEq for Value {
    ghost use Rattle.std.specs.Ordering.{eq_by_cmp};
    ghost use Rattle.std.specs.Cmp.{eq_by_cmp_equiv, partial_equiv_from_equiv};
    ghost use Rattle.fb_values.specs.Orders.{value_cmp};
    ghost use Rattle.fb_values.specs.OrderLaws.{value_cmp_total};

    ghost eq = { eq_by_cmp value_cmp };

    ghost laws = { partial_equiv_from_equiv (eq_by_cmp_equiv value_cmp_total) };

    fn eq(&self, other: &Value) -> bool {
        self.cmp(other) == Ordering::Equal
    }
}

impl Eq for Value {
    ghost use Rattle.std.specs.Cmp.{eq_by_cmp_equiv};
    ghost use Rattle.fb_values.specs.OrderLaws.{value_cmp_total};

    ghost laws = { eq_by_cmp_equiv value_cmp_total };
}

impl PartialOrd for Value {
    ghost use Rattle.std.specs.Ordering.{as_partial_cmp};
    ghost use Rattle.std.specs.Cmp.{partial_order_from_total};
    ghost use Rattle.fb_values.specs.Orders.{value_cmp};
    ghost use Rattle.fb_values.specs.OrderLaws.{value_cmp_total};

    ghost partial_cmp = { as_partial_cmp value_cmp };

    ghost laws = { partial_order_from_total value_cmp_total };

    fn partial_cmp(&self, other: &Value) -> Option<Ordering> {
        Some(self.cmp(other))
    }
}

/// By the type, and then within the type: numbers and instants as numbers, texts by their bytes, false before true.
impl Ord for Value {
    ghost use Rattle.std.specs.Prelude.{refl};
    ghost use Rattle.fb_values.specs.Orders.{value_cmp};
    ghost use Rattle.fb_values.specs.OrderLaws.{value_cmp_total};

    ghost cmp = { value_cmp };

    ghost total = { value_cmp_total };

    ghost matches_partial_cmp = { λ x y. refl };

    ghost matches_eq = { λ x y. refl };

    fn cmp(&self, other: &Value) -> Ordering {
        match (self, other) {
            (Value::Keyword(x), Value::Keyword(y)) => x.as_str().cmp(y.as_str()),
            (Value::Str(x), Value::Str(y)) => x.as_str().cmp(y.as_str()),
            (Value::Bool(x), Value::Bool(y)) => x.cmp(y),
            (Value::Long(x), Value::Long(y)) => x.cmp(y),
            (Value::Ref(x), Value::Ref(y)) => x.cmp(y),
            (Value::Instant(x), Value::Instant(y)) => x.cmp(y),
            (Value::Uuid(x), Value::Uuid(y)) => x.cmp(y),
            (Value::Symbol(x), Value::Symbol(y)) => x.as_str().cmp(y.as_str()),
            (Value::Uri(x), Value::Uri(y)) => x.as_str().cmp(y.as_str()),
            _ => self.type_place().cmp(&other.type_place()),
        }
    }
}

/// A copy of the value behind a reference, written out here: each hand-over of a value moves its bytes once more.
macro_rules! copy_of {
    ($value:expr) => {
        match $value {
            Value::Keyword(text) => Value::Keyword(text.copy()?),
            Value::Str(text) => Value::Str(text.copy()?),
            Value::Bool(b) => Value::Bool(*b),
            Value::Long(n) => Value::Long(*n),
            Value::Ref(entity) => Value::Ref(*entity),
            Value::Instant(millis) => Value::Instant(*millis),
            Value::Uuid(uuid) => Value::Uuid(*uuid),
            Value::Symbol(text) => Value::Symbol(text.copy()?),
            Value::Uri(text) => Value::Uri(text.copy()?),
        }
    };
}

impl Value {
    ghost use Rattle.fb_values.specs.Orders.{type_place};

    /// The place of the value's type among the types.
    fn type_place(&self) -> u8
        ensures { result ≡ type_place self.now }
    {
        match self {
            Value::Keyword(_) => 0,
            Value::Str(_) => 1,
            Value::Bool(_) => 2,
            Value::Long(_) => 3,
            Value::Ref(_) => 4,
            Value::Instant(_) => 5,
            Value::Uuid(_) => 6,
            Value::Symbol(_) => 7,
            Value::Uri(_) => 8,
        }
    }

    /// The same value. The bytes of a longer text are shared, not copied.
    pub fn copy(&self) -> Result<Value, Memory>
        ensures { IfOk result (λ v. v ≡ self.now) }
    {
        Ok(copy_of!(self))
    }
}

/// Entity `e` has the value `v` of the attribute `a`: recorded or withdrawn by the transaction `t`.
#[derive(Drop)]
pub struct Datom {
    pub e: u64,
    pub a: u64,
    pub v: Value,
    pub t: u32,
    /// False where the transaction withdrew the value.
    pub added: bool,
}

impl Datom {
    /// Adds a copy of the datom at the end of a list, which stays as it was where memory runs out.
    pub fn copy_into(&self, list: &mut Vec<Datom>) -> Result<(), Memory>
        ensures ok { OnOk result (list.new.items ≡ list.old.items ++ self.now ∷ []) }
        ensures err { OnErr result (list.new.items ≡ list.old.items) }
    {
        let v = copy_of!(&self.v);
        list.push(Datom {
            e: self.e,
            a: self.a,
            v,
            t: self.t,
            added: self.added,
        })?;
        Ok(())
    }

    /// The same datom, which shares the bytes of a longer text.
    pub fn copy(&self) -> Result<Datom, Memory>
        ensures { IfOk result (λ d. d ≡ self.now) }
    {
        Ok(Datom {
            e: self.e,
            a: self.a,
            v: self.v.copy()?,
            t: self.t,
            added: self.added,
        })
    }
}

/// A list of datoms.
#[derive(Drop)]
pub struct Datoms {
    items: Vec<Datom>,
}

impl Model for Datoms {
    ghost use Rattle.std.specs.Prelude.{List};
    ghost use Rattle.fb_values.specs.declared.facts.Datom.{Datom};

    ghost Value = { List Datom };

    ghost view = { λ d. d.items.items };
}

impl Datoms {
    pub fn of(items: Vec<Datom>) -> Datoms
        ensures { result ≡ items.items }
    {
        Datoms { items }
    }

    pub fn as_slice(&self) -> &[Datom]
        ensures { result.now ≡ self.now }
    {
        self.items.as_slice()
    }

    pub fn len(&self) -> usize
        ensures { result ≡ length self.now }
    {
        self.items.len()
    }

    pub fn is_empty(&self) -> bool
        ensures { result ≡ (length self.now == 0) }
    {
        self.items.is_empty()
    }

    /// The same list, whose texts share their bytes with this one's.
    pub fn copy(&self) -> Result<Datoms, Memory>
        ensures { IfOk result (λ d. d ≡ self.now) }
    {
        let mut items = Vec::with_capacity(*self.items.allocator(), self.items.len())?;
        for datom in self.items.iter() {
            datom.copy_into(&mut items)?;
        }
        Ok(Datoms { items })
    }
}

/// One transaction of a history: its number, the instant at which it was recorded, and what it recorded.
#[derive(Drop)]
pub struct Entry {
    pub t: u32,
    /// In milliseconds from 1970-01-01T00:00:00Z.
    pub instant: i64,
    pub datoms: Datoms,
}

impl Entry {
    /// The same entry, whose texts share their bytes with this one's.
    pub fn copy(&self) -> Result<Entry, Memory>
        ensures { IfOk result (λ entry. entry ≡ self.now) }
    {
        Ok(Entry {
            t: self.t,
            instant: self.instant,
            datoms: self.datoms.copy()?,
        })
    }
}
