//! The reasons for which a transaction is refused, in the order in which they are reported.
ghost use Rattle.std.specs.Prelude.{◌≡◌};
ghost use Rattle.tx_refusals.specs.Reasons.{keyword_of, number_of};

/// By what a guard bars the changes of a transaction that is not refused otherwise.
#[derive(Clone, Copy, Debug, PartialEq, Eq)]
pub enum Bar {
    /// A value does not pass the predicate of its attribute.
    AttrPred,
    /// An entity lacks an attribute that it is required to have.
    MissingRequired,
    /// Two entities have one tuple of values that is to be unique.
    UniqueTuple,
}

/// Why a transaction is refused. Of several reasons the first one here is reported.
#[derive(Clone, Copy, Debug, PartialEq, Eq)]
pub enum Reason {
    NotAForm,
    NotAnAttribute,
    ProtectedAttribute,
    WrongType,
    NotUniqueLookup,
    NotAnEntity,
    NestedWithoutId,
    TempidConflict,
    TempidNotAnEntity,
    CasMany,
    CasFailed,
    DatomsConflict,
    UniqueConflict,
    IncompleteAttribute,
    AttributeFixed,
    TooLarge,
    Full,
    AlterationConflict,
    /// A guard bars it.
    Barred(Bar),
}

/// A reason, and the first form for which it holds: its place in the transaction, from 0.
#[derive(Clone, Copy, Debug, PartialEq, Eq)]
pub struct Refusal {
    pub reason: Reason,
    pub at: usize,
}

impl Reason {
    /// Its name in a reply, without the colon.
    pub fn keyword(self) -> &'static str
        ensures { result.now ≡ keyword_of self }
    {
        match self {
            Reason::NotAForm => "db.error/not-a-form",
            Reason::NotAnAttribute => "db.error/not-an-attribute",
            Reason::ProtectedAttribute => "db.error/protected-attribute",
            Reason::WrongType => "db.error/wrong-type-for-attribute",
            Reason::NotUniqueLookup => "db.error/not-unique-lookup",
            Reason::NotAnEntity => "db.error/not-an-entity",
            Reason::NestedWithoutId => "db.error/nested-without-id",
            Reason::TempidConflict => "db.error/tempid-conflict",
            Reason::TempidNotAnEntity => "db.error/tempid-not-an-entity",
            Reason::CasMany => "db.error/cas-many",
            Reason::CasFailed => "db.error/cas-failed",
            Reason::DatomsConflict => "db.error/datoms-conflict",
            Reason::UniqueConflict => "db.error/unique-conflict",
            Reason::IncompleteAttribute => "db.error/incomplete-attribute",
            Reason::AttributeFixed => "db.error/attribute-fixed",
            Reason::TooLarge => "db.error/too-large",
            Reason::Full => "db.error/full",
            Reason::AlterationConflict => "db.error/alteration-conflict",
            Reason::Barred(Bar::AttrPred) => "db.error/attr-pred",
            Reason::Barred(Bar::MissingRequired) => "db.error/missing-required",
            Reason::Barred(Bar::UniqueTuple) => "db.error/unique-tuple",
        }
    }

    /// Its place among the reasons, from 1 to 21: of two reasons the one with the lesser number is reported.
    pub fn number(self) -> u8
        ensures { result ≡ number_of self }
    {
        match self {
            Reason::NotAForm => 1,
            Reason::NotAnAttribute => 2,
            Reason::ProtectedAttribute => 3,
            Reason::WrongType => 4,
            Reason::NotUniqueLookup => 5,
            Reason::NotAnEntity => 6,
            Reason::NestedWithoutId => 7,
            Reason::TempidConflict => 8,
            Reason::TempidNotAnEntity => 9,
            Reason::CasMany => 10,
            Reason::CasFailed => 11,
            Reason::DatomsConflict => 12,
            Reason::UniqueConflict => 13,
            Reason::IncompleteAttribute => 14,
            Reason::AttributeFixed => 15,
            Reason::TooLarge => 16,
            Reason::Full => 17,
            Reason::AlterationConflict => 18,
            Reason::Barred(Bar::AttrPred) => 19,
            Reason::Barred(Bar::MissingRequired) => 20,
            Reason::Barred(Bar::UniqueTuple) => 21,
        }
    }
}
