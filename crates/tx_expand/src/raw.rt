//! What a form asks, before it is judged: names and forms as they are, with the attributes that were looked up.
ghost use Rattle.std.specs.Prelude.{◌≡◌, [], IfOk};

use edn_form::Edn;
use fb_memory::Memory;
use fb_schema::Attribute;
use fb_text::Text;
use tx_asks::{LookupRef, Name};

/// A keyword in an attribute's place.
#[derive(Drop)]
pub enum Attr<'a> {
    Known(&'a Attribute),
    /// No attribute has the name.
    Unknown(Text),
}

/// The key of a map, but for `:db/id`.
#[derive(Drop)]
pub enum Link<'a> {
    /// An attribute of the map's entity.
    Forward(Attr<'a>),
    /// An attribute whose value is the map's entity.
    Backward(Attr<'a>),
}

/// What is given in the place of a value.
#[derive(Clone, Copy)]
pub enum RawPart<'a> {
    /// A value, to be read by the attribute's type.
    Plain(&'a Edn),
    Entity(Name<'a>),
}

/// What is asked of an entity.
#[derive(Drop)]
pub enum RawAsk<'a> {
    Adds(Name<'a>, Attr<'a>, RawPart<'a>),
    Retracts(Name<'a>, Attr<'a>, RawPart<'a>),
    /// Every value.
    RetractsAll(Name<'a>, Attr<'a>),
    /// The old value and the new one.
    Compares(Name<'a>, Attr<'a>, RawPart<'a>, RawPart<'a>),
    RetractsEntity(Name<'a>),
    /// There is a map of this entity.
    Meets(Name<'a>),
    /// An attribute is a key of a map.
    Mentions(Attr<'a>),
    /// A map inside another lacks what it needs.
    LacksId,
}

/// What a form asks so far, the lookup refs of this form and of those before it, and the number of the next map without
/// `:db/id`.
#[derive(Drop)]
pub struct Out<'a> {
    pub raws: Vec<RawAsk<'a>>,
    pub lookups: Vec<LookupRef<'a>>,
    pub next: usize,
}

impl<'a> Attr<'a> {
    pub fn copy(&self) -> Result<Attr<'a>, Memory>
        ensures { IfOk result (λ copy. copy ≡ self.now) }
    {
        Ok(match self {
            Attr::Known(attribute) => Attr::Known(*attribute),
            Attr::Unknown(k) => Attr::Unknown(k.copy()?),
        })
    }
}
