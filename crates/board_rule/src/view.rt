//! What a seat knows. These types are for clauses alone: no value of `View` is ever made.
ghost use base.Stored.{Gv};
ghost use base.Fml.{ftrue};

use std::collections::LinkedList;
use std::marker::Model;

/// The log failed: the t that the entry would have got, and the number of the seat whose append failed.
pub struct Stop {
    pub at: u64,
    pub author: u64,
}

/// What the word of the ticket served names beside that ticket.
pub struct Marks {
    pub stop: Option<Stop>,
    /// Merged trees are adopted for the entries up to this t.
    pub covered: u64,
}

/// What the holder of the turn knows: the whole history, its authors, and the named marks.
pub struct Story<E> {
    pub entries: LinkedList<E>,
    pub authors: LinkedList<u64>,
    pub marks: Marks,
}

/// What is kept of a seat that was joined to another, and of what that one had seen.
pub struct Joined<E> {
    pub number: u64,
    pub seen: LinkedList<E>,
    /// What the seat that stayed had seen until then.
    pub beside: LinkedList<E>,
    pub commits: LinkedList<u64>,
    pub stop: Option<Stop>,
}

/// Where the value of slot 0 is.
pub enum At {
    /// In the slot.
    Home,
    /// With the holder of the turn. The slot is empty.
    Away,
    /// The slot itself is with the seat, in the midst of a move.
    Hand,
}

/// What a mail slot has, whose word a seat holds.
pub enum Content<E> {
    /// The slot itself is with the seat, in the midst of a move.
    InHand,
    Empty,
    /// A snapshot of this history.
    Full(LinkedList<E>),
}

/// Which mail word a seat holds.
pub enum Grab<E> {
    Free,
    /// Its own, as the reader, who has noted nothing yet.
    Grabbed,
    /// Its own, as the reader, who found a snapshot of this history.
    Found(LinkedList<E>, Content<E>),
    /// That of this session, as the holder of the turn.
    Writing(u64, Content<E>),
}

/// An entry in a view, as its ghost code: so a view, and the seat that has it, name no type of entry.
pub struct Code {
    pub ghost of: { Gv },
}

impl Model for Code {
    ghost also_owns = { λ _. ftrue };
}

/// What one seat knows.
pub struct View<E> {
    pub number: u64,
    /// 1, and one more for each seat joined to it. A seat that was joined away has 0.
    pub seats: u64,
    /// Of the first seat: the least number that no seat was given.
    pub given: u64,
    /// The basis of the history when the board was made.
    pub start: u64,
    pub ticket: Option<u64>,
    pub draws: u64,
    /// Loads of the count of entries.
    pub loads: u64,
    /// Grabs of its own mail word, those that were lost included.
    pub grabs: u64,
    pub lost: u64,
    /// The mail word as its last grab found it.
    pub met: u64,
    /// The history of the snapshot that the last grab of its own mail word found in the slot, once it was noted.
    pub last_found: Option<LinkedList<E>>,
    /// A beginning of the history, as far as the seat has seen it.
    pub seen: LinkedList<E>,
    /// The t of each entry that it added, in order.
    pub commits: LinkedList<u64>,
    pub joined: LinkedList<Joined<E>>,
    /// While it has the turn.
    pub turn: Option<Story<E>>,
    pub core: At,
    /// The marks that its leaving will name, where they change.
    pub next: Option<Marks>,
    /// After a commit in this turn: the sessions whose mail was tried since.
    pub tried: Option<LinkedList<u64>>,
    /// The stop that it was notified of.
    pub stop: Option<Stop>,
    /// Of the first seat: the `covered` that it learnt last.
    pub covered: u64,
    pub grab: Grab<E>,
}
