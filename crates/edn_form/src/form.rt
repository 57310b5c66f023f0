//! A form of EDN as data.
ghost use Rattle.std.specs.Prelude.{◌≡◌, length, IfOk};

use fb_memory::Memory;
use fb_text::Text;

/// A form. A keyword's text is without its colon, and a string's escapes are read.
#[cycle(edn)]
#[derive(Drop)]
pub enum Edn {
    Nil,
    Bool(bool),
    Int(i64),
    Str(Text),
    Sym(Text),
    Key(Text),
    List(Items),
    Vector(Items),
    Map(Pairs),
    Set(Items),
    /// In milliseconds from 1970-01-01T00:00:00Z.
    Inst(i64),
    Uuid(u128),
}

/// The members of a list, a vector or a set, in the order of their text.
#[cycle(edn)]
#[derive(Drop)]
pub struct Items {
    items: Vec<Edn>,
}

/// The keys of a map, each with its value, in the order of their text.
#[cycle(edn)]
#[derive(Drop)]
pub struct Pairs {
    pairs: Vec<(Edn, Edn)>,
}

impl Edn {
    ghost use Rattle.edn_form.specs.View.{form_of};

    /// The same form, whose texts share their bytes with this one's.
    #[cycle(copy)]
    pub fn copy(&self) -> Result<Edn, Memory>
        ensures { IfOk result (λ e. form_of e ≡ form_of self.now) }
    {
        Ok(match self {
            Edn::Nil => Edn::Nil,
            Edn::Bool(b) => Edn::Bool(*b),
            Edn::Int(n) => Edn::Int(*n),
            Edn::Str(text) => Edn::Str(text.copy()?),
            Edn::Sym(text) => Edn::Sym(text.copy()?),
            Edn::Key(text) => Edn::Key(text.copy()?),
            Edn::List(items) => Edn::List(items.copy()?),
            Edn::Vector(items) => Edn::Vector(items.copy()?),
            Edn::Map(pairs) => Edn::Map(pairs.copy()?),
            Edn::Set(items) => Edn::Set(items.copy()?),
            Edn::Inst(millis) => Edn::Inst(*millis),
            Edn::Uuid(uuid) => Edn::Uuid(*uuid),
        })
    }
}

impl Items {
    ghost use Rattle.std.specs.Prelude.{◌==◌};
    ghost use Rattle.edn_form.specs.View.{forms_of, members};

    pub fn of(items: Vec<Edn>) -> Items
        ensures { members result ≡ items.items }
    {
        Items { items }
    }

    pub fn as_slice(&self) -> &[Edn]
        ensures { result.now ≡ members self.now }
    {
        self.items.as_slice()
    }

    pub fn len(&self) -> usize
        ensures { result ≡ length (members self.now) }
    {
        self.items.len()
    }

    pub fn is_empty(&self) -> bool
        ensures { result ≡ (length (members self.now) == 0) }
    {
        self.items.is_empty()
    }

    /// The same forms, whose texts share their bytes with these ones'.
    #[cycle(copy)]
    pub fn copy(&self) -> Result<Items, Memory>
        ensures { IfOk result (λ i. forms_of (members i) ≡ forms_of (members self.now)) }
    {
        let mut items = Vec::with_capacity(*self.items.allocator(), self.items.len())?;
        for item in self.items.iter() {
            items.push(item.copy()?)?;
        }
        Ok(Items { items })
    }
}

impl Pairs {
    ghost use Rattle.std.specs.Prelude.{◌==◌};
    ghost use Rattle.edn_form.specs.View.{pairs_of, entries};

    pub fn of(pairs: Vec<(Edn, Edn)>) -> Pairs
        ensures { entries result ≡ pairs.items }
    {
        Pairs { pairs }
    }

    pub fn as_slice(&self) -> &[(Edn, Edn)]
        ensures { result.now ≡ entries self.now }
    {
        self.pairs.as_slice()
    }

    pub fn len(&self) -> usize
        ensures { result ≡ length (entries self.now) }
    {
        self.pairs.len()
    }

    pub fn is_empty(&self) -> bool
        ensures { result ≡ (length (entries self.now) == 0) }
    {
        self.pairs.is_empty()
    }

    /// The same pairs, whose texts share their bytes with these ones'.
    #[cycle(copy)]
    pub fn copy(&self) -> Result<Pairs, Memory>
        ensures { IfOk result (λ p. pairs_of (entries p) ≡ pairs_of (entries self.now)) }
    {
        let mut pairs = Vec::with_capacity(*self.pairs.allocator(), self.pairs.len())?;
        for (key, value) in self.pairs.iter() {
            pairs.push((key.copy()?, value.copy()?))?;
        }
        Ok(Pairs { pairs })
    }
}
