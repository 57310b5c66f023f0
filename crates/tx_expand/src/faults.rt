//! What may be wrong where the schema alone is looked at: in a lookup ref, and in an ask.

/// What is wrong with one of some lookup refs.
#[derive(Clone, Copy)]
pub struct NameFaults {
    /// It has no attribute.
    pub unknown: bool,
    /// Its value is none of its attribute.
    pub wrong: bool,
    /// Its attribute is not unique.
    pub not_unique: bool,
}

/// What is wrong with one of some asks.
#[derive(Clone, Copy)]
pub struct Faults {
    /// A keyword in an attribute's place names none.
    pub unknown: bool,
    /// It changes what the database keeps for itself.
    pub protected: bool,
    /// A value is not of its attribute's type.
    pub wrong: bool,
    /// The attribute of a lookup ref is not unique.
    pub not_unique: bool,
    /// A map inside another lacks what it needs.
    pub lacking: bool,
}

impl NameFaults {
    ghost use Rattle.std.specs.Prelude.{◌≡◌};
    ghost use Rattle.tx_expand.specs.Faults.{either_name};

    pub const NONE: NameFaults = NameFaults {
        unknown: false,
        wrong: false,
        not_unique: false,
    };

    /// What is wrong with either.
    pub fn or(self, other: NameFaults) -> NameFaults
        ensures { result ≡ either_name self other }
    {
        NameFaults {
            unknown: self.unknown || other.unknown,
            wrong: self.wrong || other.wrong,
            not_unique: self.not_unique || other.not_unique,
        }
    }
}

impl Faults {
    ghost use Rattle.std.specs.Prelude.{◌≡◌};
    ghost use Rattle.tx_expand.specs.Faults.{either};

    pub const NONE: Faults = Faults {
        unknown: false,
        protected: false,
        wrong: false,
        not_unique: false,
        lacking: false,
    };

    /// What is wrong with either.
    pub fn or(self, other: Faults) -> Faults
        ensures { result ≡ either self other }
    {
        Faults {
            unknown: self.unknown || other.unknown,
            protected: self.protected || other.protected,
            wrong: self.wrong || other.wrong,
            not_unique: self.not_unique || other.not_unique,
            lacking: self.lacking || other.lacking,
        }
    }
}
