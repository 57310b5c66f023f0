//! A play, as a text has it: who asks what, and after an arrow the line that answers it, in the order in which the lines are taken. A
//! session that speaks after the other one begins with `[:unfilter]`, which looks at nothing. So the lines are these, whatever the
//! threads do. Two notes say when the worker is at its point, and when it has gone on.
use anyhow::{Result, bail};
use std::alloc::Global;

/// The sessions that speak.
pub(crate) const SPEAKERS: &[&str] = &["ann", "bob"];

#[derive(Clone, Copy)]
pub(crate) struct Line<'a> {
    by: &'a str,
    asks: &'a str,
    answer: &'a str,
}

#[derive(Drop)]
pub(crate) struct Play<'a> {
    lines: Vec<Line<'a>>,
    /// The number of the line from which on the worker is at its point, and of that from which on it has gone on.
    pub(crate) stands: usize,
    pub(crate) goes_on: usize,
}

pub(crate) fn play_in(alloc: Global, text: &str) -> Result<Play<'_>> {
    let mut lines = Vec::new(alloc);
    let mut notes = Vec::new(alloc);
    for line in text.lines() {
        match line.split_once(" -> ") {
            Some((speech, answer)) => lines.push(line_of(speech, answer)?)?,
            None => notes.push(lines.len())?,
        }
    }
    match notes.as_slice() {
        [stands, goes_on] => Ok(Play {
            lines,
            stands: *stands,
            goes_on: *goes_on,
        }),
        _ => bail!("a play has two notes"),
    }
}

fn line_of<'a>(speech: &'a str, answer: &'a str) -> Result<Line<'a>> {
    match speech.split_once(' ') {
        Some((by, asks)) => Ok(Line { by, asks, answer }),
        None => bail!("a line of the play has no speaker"),
    }
}

impl Play<'_> {
    /// What the speaker asks.
    pub(crate) fn script(&self, alloc: Global, by: &str) -> Result<String> {
        let mut script = String::new(alloc);
        for line in self.lines.iter() {
            if line.by == by {
                writeln!(script, "{}", line.asks)?;
            }
        }
        Ok(script)
    }

    /// What the speaker has to be answered.
    pub(crate) fn answers(&self, alloc: Global, by: &str) -> Result<String> {
        let mut answers = String::new(alloc);
        for line in self.lines.iter() {
            if line.by == by {
                writeln!(answers, "{}", line.answer)?;
            }
        }
        Ok(answers)
    }

    /// The numbers of the speaker's lines, the last one first.
    pub(crate) fn turns(&self, alloc: Global, by: &str) -> Result<Vec<u64>> {
        let mut turns = Vec::new(alloc);
        for (number, line) in self.lines.iter().enumerate() {
            if line.by == by {
                turns.push(number as u64)?;
            }
        }
        turns.reverse();
        Ok(turns)
    }
}
