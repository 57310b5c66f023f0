//! What histories of a few transactions leave in a directory, with segments that have all of it, and what a plain session answers of them.
use crate::directories::{Contents, Parts};
use crate::plain::{answers_of, plain_session};
use crate::runs::{Ended, Terms, ends_so, run_in};
use anyhow::{Result, bail};
use plain_session::PlainSession;
use std::alloc::Global;
use std::sync::Wait;
use std::thread::Threads;

/// Two transactions, and one in place of the second.
pub(crate) const FIRST: &str = "[:transact [[:db/add \"x\" :db/doc \"one\"]]]\n";

pub(crate) const SECOND: &str = "[:transact [[:db/add \"y\" :db/doc \"two\"]]]\n";

const THIRD: &str = "[:transact [[:db/add \"z\" :db/doc \"three\"]]]\n";

pub(crate) const FOURTH: &str = "[:transact [[:db/add \"w\" :db/doc \"four\"]]]\n";

const OTHER: &str = "[:transact [[:db/add \"y\" :db/doc \"too\"]]]\n";

/// The first two.
pub(crate) const BOTH: &str = concat!(
    "[:transact [[:db/add \"x\" :db/doc \"one\"]]]\n",
    "[:transact [[:db/add \"y\" :db/doc \"two\"]]]\n"
);

/// The scripts of each history: of one without a transaction, one with the first, two that go on from it, and two that go on from the
/// second.
const HISTORIES: &[&[&str]] = &[
    &[""],
    &[FIRST],
    &[FIRST, SECOND],
    &[FIRST, OTHER],
    &[FIRST, SECOND, THIRD],
    &[FIRST, SECOND, THIRD, FOURTH],
];

/// They read all that the trees have.
const READS: &str =
    "[:history]\n[:datoms :eavt]\n[:datoms :aevt]\n[:datoms :avet]\n[:datoms :vaet]\n";

/// Each datom makes a merge due, or none does here.
const ALWAYS: &str = "1";

const NEVER: &str = "1000000";

/// What scripts leave in a directory, each run of which ends with a merge.
#[derive(Drop)]
pub(crate) struct Kept {
    directory: Merged,
    answers: Answers,
}

/// A directory, and the t of its last transaction.
#[derive(Drop)]
struct Merged {
    parts: Parts,
    t: u32,
}

/// What the last script is answered, and what the reads are.
#[derive(Drop)]
struct Answers {
    replies: Vec<u8>,
    reads: Vec<u8>,
}

/// What each history leaves.
pub(crate) fn kept_by_each<R: Threads + Wait + Sync>(rt: &R, alloc: Global) -> Result<Vec<Kept>> {
    let mut kept = Vec::new(alloc);
    for scripts in HISTORIES {
        kept.push(Kept::of(rt, alloc, scripts)?)?;
    }
    Ok(kept)
}

impl Kept {
    fn of<R: Threads + Wait + Sync>(rt: &R, alloc: Global, scripts: &[&str]) -> Result<Kept> {
        let answers = Answers::of(alloc, scripts)?;
        let directory = merge_each(rt, alloc, scripts)?;
        Ok(Kept { directory, answers })
    }

    pub(crate) fn log(&self) -> &[u8] {
        self.directory.parts.log.bytes()
    }

    pub(crate) fn segments(&self) -> &[u8] {
        self.directory.parts.segments.bytes()
    }

    /// The t of the last transaction.
    pub(crate) fn t(&self) -> u32 {
        self.directory.t
    }

    /// What the last script is answered.
    pub(crate) fn replies(&self) -> &[u8] {
        &self.answers.replies
    }

    /// How far the trees go with which its log is opened beside these segments. The reads have to be answered as ever.
    pub(crate) fn covered_by<R: Threads + Wait + Sync>(
        &self,
        rt: &R,
        alloc: Global,
        segments: &[u8],
    ) -> Result<u32> {
        let contents = Contents {
            log: self.log(),
            segments,
        };
        self.covered_in(&read_over(rt, alloc, contents)?)
    }

    /// How far the trees of such a run go, which has to answer the reads as ever.
    pub(crate) fn covered_in(&self, ended: &Ended) -> Result<u32> {
        self.answers.covered_by(ended)
    }
}

impl Answers {
    fn of(alloc: Global, scripts: &[&str]) -> Result<Answers> {
        let [before @ .., last] = scripts else {
            bail!("there is no script");
        };
        Ok(Answers {
            replies: answers_after(alloc, before, last)?,
            reads: answers_after(alloc, scripts, READS)?,
        })
    }

    fn covered_by(&self, ended: &Ended) -> Result<u32> {
        if !ends_so(ended, 0, "", &self.reads) {
            bail!("segments change an answer");
        }
        Ok(ended.covered)
    }
}

/// What a script is answered after others.
fn answers_after(alloc: Global, before: &[&str], script: &str) -> Result<Vec<u8>> {
    last_answers(alloc, &mut plain_session(alloc)?, before, script)
}

fn last_answers(
    alloc: Global,
    plain: &mut PlainSession,
    before: &[&str],
    script: &str,
) -> Result<Vec<u8>> {
    for earlier in before {
        answers_of(alloc, plain, earlier)?;
    }
    answers_of(alloc, plain, script)
}

/// What scripts leave of an empty directory, one after another.
fn merge_each<R: Threads + Wait + Sync>(rt: &R, alloc: Global, scripts: &[&str]) -> Result<Merged> {
    let mut directory = Merged {
        parts: Parts::of(alloc, &[])?,
        t: 0,
    };
    for script in scripts {
        directory = merge_after(rt, alloc, script, directory.parts)?;
    }
    Ok(directory)
}

fn merge_after<R: Threads + Wait + Sync>(
    rt: &R,
    alloc: Global,
    script: &str,
    parts: Parts,
) -> Result<Merged> {
    let ended = merge_over(rt, alloc, script, parts)?;
    Ok(Merged {
        t: ended.basis(),
        parts: ended.into_parts()?,
    })
}

/// Runs a script over a directory, with a merge at the end.
pub(crate) fn merge_over<R: Threads + Wait + Sync>(
    rt: &R,
    alloc: Global,
    script: &str,
    parts: Parts,
) -> Result<Ended> {
    run_in(rt, alloc, Terms::in_directory(ALWAYS), &[script], parts)
}

/// Reads all that a directory has, without a merge.
pub(crate) fn read_over<R: Threads + Wait + Sync>(
    rt: &R,
    alloc: Global,
    contents: Contents<'_>,
) -> Result<Ended> {
    let terms = Terms::in_directory(NEVER);
    run_in(rt, alloc, terms, &[READS], contents.parts(alloc)?)
}
