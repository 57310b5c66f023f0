//! What a run hands back.
use fb_core::Draft;
use fb_history::Authors;
use fb_session::{Places, SessionEnd};
use fb_view::Snapshot;
use mem_ports::{MemSink, MemSource};

/// What is left of a session.
#[derive(Drop)]
pub struct SessionOut<I, O> {
    pub source: I,
    pub sink: O,
    pub end: SessionEnd,
    /// For each line that was written whole, the t of the last entry that it rests on.
    pub places: Places,
    /// The t of each transaction that the session committed.
    pub commits: Places,
}

/// What a command hands back.
#[derive(Drop)]
pub struct Outcome<I, O, D> {
    /// The program's exit status.
    pub status: u8,
    /// What goes to standard error, where it is not empty.
    pub line: String,
    /// One for each script, in order.
    pub sessions: Vec<SessionOut<I, O>>,
    /// Where the line of `check`, `load` or `backup` was written, in whole or in part.
    pub console: Option<O>,
    /// The sessions of the generator, by number.
    pub loads: Vec<SessionOut<MemSource, MemSink>>,
    /// The two disks of the directory, where both could be opened.
    pub log: Option<D>,
    pub segments: Option<D>,
    /// The two disks that a backup copied to.
    pub target_log: Option<D>,
    pub target_segments: Option<D>,
    /// For each t after the opening, the session that wrote it, where sessions ran.
    pub authors: Option<Authors>,
    /// The last value of the database, where sessions ran: its entries are the one history.
    pub last: Option<Snapshot>,
    /// The transaction whose entry the log did not take, and may have in part.
    pub torn: Option<Draft>,
    /// The t up to which the history was there at the opening, where sessions ran.
    pub recovered: u32,
    /// The last t in the trees of the last value.
    pub covered: u32,
}
