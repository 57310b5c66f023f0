//! What a crash may leave of a run, and how a script has to go on from there.
use crate::plain::answers_of;
use crate::runs::{Ended, served_by};
use anyhow::{Result, bail};
use plain_session::PlainSession;
use std::alloc::Global;
use test_replay::{Replay, Torn};

/// It tells the whole history.
const WHOLE: &str = "[:tx-range 1 nil]\n";

/// Scripts over a log, and a plain session that has its history.
#[derive(Clone, Copy)]
pub(crate) struct Case<'a> {
    pub(crate) log: &'a [u8],
    pub(crate) plain: &'a PlainSession,
    pub(crate) scripts: &'a [&'a str],
}

/// What is asked of a log after a crash, the whole history and then more, and what has to be answered.
#[derive(Drop)]
pub(crate) struct Sequel {
    pub(crate) script: String,
    pub(crate) lines: Vec<u8>,
}

impl Sequel {
    fn of(alloc: Global, plain: &PlainSession, more: &str) -> Result<Sequel> {
        let script = format!(in alloc; "{WHOLE}{more}")?;
        let lines = answers_of(alloc, &mut plain.copy()?, script.as_str())?;
        Ok(Sequel { script, lines })
    }

    /// The sequel where the log has the transaction that met the stop.
    fn with(alloc: Global, plain: &mut PlainSession, torn: Torn<'_>) -> Result<Sequel> {
        answers_of(alloc, plain, torn.form)?;
        Sequel::of(alloc, plain, torn.rest)
    }
}

/// What goes on from a history, and where a transaction met the stop of the log, from the history with its entry.
#[derive(Drop)]
pub(crate) struct Left {
    before: Sequel,
    with_torn: Option<Sequel>,
}

impl Left {
    /// A history alone.
    pub(crate) fn alone(alloc: Global, plain: &PlainSession, more: &str) -> Result<Left> {
        Ok(Left {
            before: Sequel::of(alloc, plain, more)?,
            with_torn: None,
        })
    }

    /// A history, and one more entry.
    fn with(alloc: Global, plain: &mut PlainSession, torn: Torn<'_>) -> Result<Left> {
        Ok(Left {
            before: Sequel::of(alloc, plain, torn.script)?,
            with_torn: Some(Sequel::with(alloc, plain, torn)?),
        })
    }

    /// Where the gate of the torn entry is open, the entry is there.
    pub(crate) fn where_open(&self, is_open: bool) -> &Sequel {
        match &self.with_torn {
            Some(with_torn) if is_open => with_torn,
            _ => &self.before,
        }
    }
}

/// What a crash may leave of a run, all lines of which a plain session has to answer as they are, where the log stops there.
pub(crate) fn left_by(
    alloc: Global,
    case: Case<'_>,
    ended: &Ended,
    stop: Option<u32>,
) -> Result<Left> {
    let mut replay = Replay::new(alloc, case.plain.copy()?, stop)?;
    left_behind(alloc, &mut replay, case.scripts, ended, stop)
}

fn left_behind<'a>(
    alloc: Global,
    replay: &mut Replay<'a>,
    scripts: &[&'a str],
    ended: &'a Ended,
    stop: Option<u32>,
) -> Result<Left> {
    replay_all(alloc, replay, scripts, ended)?;
    match (stop, replay.torn) {
        (None, _) => Left::alone(alloc, &replay.plain, ""),
        (Some(_), Some(torn)) => Left::with(alloc, &mut replay.plain, torn),
        (Some(_), None) => bail!("no transaction met the stop"),
    }
}

fn replay_all<'a>(
    alloc: Global,
    replay: &mut Replay<'a>,
    scripts: &[&'a str],
    ended: &'a Ended,
) -> Result<()> {
    let served = served_by(alloc, scripts, ended)?;
    replay.replay(served.as_slice(), ended.recovered..ended.basis())
}
