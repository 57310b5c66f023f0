//! The plain session that runs are compared with.
use crate::runs::CLOCK;
use anyhow::Result;
use plain_session::PlainSession;
use std::alloc::Global;
use test_replay::answer_all;

/// One at the beginning, which has the clock of a run.
pub(crate) fn plain_session(alloc: Global) -> Result<PlainSession> {
    Ok(PlainSession::new(alloc, CLOCK, 0)?)
}

/// Its lines for a script.
pub(crate) fn answers_of(alloc: Global, plain: &mut PlainSession, script: &str) -> Result<Vec<u8>> {
    let mut lines = Vec::new(alloc);
    answer_all(alloc, plain, script, &mut lines)?;
    Ok(lines)
}
