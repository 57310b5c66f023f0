//! The reasons for which a command that changes nothing is refused, in the order in which they are judged.
ghost use Rattle.std.specs.Prelude.{◌≡◌};
ghost use Rattle.read_refusals.specs.Reasons.{keyword_of};

/// Why a command is refused. Of several reasons the first one here is reported, but for a range's and a list of
/// components' two, `BadComponent` and `NotInIndex`, of which the one at the earlier place is reported.
#[derive(Clone, Copy, Debug, PartialEq, Eq)]
pub enum Reason {
    /// The form is not a command.
    NotACommand,
    /// Transactions are to be tried on a view that is filtered or narrowed.
    Filtered,
    /// The pattern of a Pull is none.
    BadPattern,
    /// The attributes of a tuple are none that can make one.
    BadTuple,
    /// No filter has the name.
    NoFilter,
    /// No point in time, or no end of a range of the log.
    BadPoint,
    /// A component, or an end of a range of an index, that cannot be read or is of the wrong type.
    BadComponent,
    /// An attribute that the index does not hold.
    NotInIndex,
    /// The entity of a Pull is found by no name.
    NotAnEntity,
    /// A read that takes no history meets a history view.
    History,
    /// A Pull makes too much.
    TooLarge,
}

/// A reason, and the place in the command that is at fault: 0 is the command's word, and the whole command.
#[derive(Clone, Copy, Debug, PartialEq, Eq)]
pub struct Refusal {
    pub reason: Reason,
    pub at: usize,
}

impl Reason {
    /// Its name in a reply, without the colon.
    pub fn keyword(self) -> &'static str
        ensures { result.now ≡ keyword_of self }
    {
        match self {
            Reason::NotACommand => "read/not-a-command",
            Reason::Filtered => "read/filtered",
            Reason::BadPattern => "read/bad-pattern",
            Reason::BadTuple => "read/bad-tuple",
            Reason::NoFilter => "read/no-filter",
            Reason::BadPoint => "read/bad-point",
            Reason::BadComponent => "read/bad-component",
            Reason::NotInIndex => "read/not-in-index",
            Reason::NotAnEntity => "read/not-an-entity",
            Reason::History => "read/history",
            Reason::TooLarge => "read/too-large",
        }
    }
}
