//! What the drawn scripts reached.
use crate::forms::next_form;
use anyhow::{Result, bail};
use edn_form::Edn;
use std::alloc::Global;

/// What a line can say of the command that it answers.
#[derive(Clone, Copy, PartialEq)]
pub(crate) enum Answer {
    /// It was not refused.
    Given,
    /// It was a read that a datom answered, or the tree of a pull.
    Found,
    /// It was refused as a read, or as a transaction.
    NoRead,
    NoTransaction,
}

/// A kind of answer that was met, with the word of the command or the keyword of the refusal.
#[derive(Drop)]
struct Met {
    answer: Answer,
    name: Vec<u8>,
}

#[derive(Drop)]
pub(crate) struct Tally {
    pub(crate) scripts: u32,
    pub(crate) lines: u32,
    met: Vec<Met>,
}

impl Tally {
    pub(crate) fn new(alloc: Global) -> Tally {
        Tally {
            scripts: 0,
            lines: 0,
            met: Vec::new(alloc),
        }
    }

    /// How many words or keywords were met with such an answer.
    pub(crate) fn count_of(&self, answer: Answer) -> usize {
        self.met.iter().filter(|met| met.answer == answer).count()
    }

    pub(crate) fn count(&mut self, alloc: Global, script: &[u8], lines: &[u8]) -> Result<()> {
        self.scripts = self.scripts.saturating_add(1);
        let mut at = 0;
        for line in lines.split_inclusive(|byte| *byte == b'\n') {
            at = self.count_next(alloc, script, at, line)?;
        }
        Ok(())
    }

    /// Counts the line that answers the script's form at the place. It gives the place after the form.
    fn count_next(
        &mut self,
        alloc: Global,
        script: &[u8],
        at: usize,
        line: &[u8],
    ) -> Result<usize> {
        let Some((form, behind)) = next_form(alloc, script, at)? else {
            bail!("a line answers no form");
        };
        self.lines = self.lines.saturating_add(1);
        self.count_line(alloc, word_of(&form), line)?;
        Ok(behind)
    }

    fn count_line(&mut self, alloc: Global, word: &str, line: &[u8]) -> Result<()> {
        let Some(rest) = line.strip_prefix(b"{:refused :") else {
            if finds(word, line) {
                self.meet(alloc, Answer::Found, word.as_bytes())?;
            }
            return self.meet(alloc, Answer::Given, word.as_bytes());
        };
        let keyword = rest.split(|byte| *byte == b' ').next().unwrap_or(b"");
        let answer = if keyword.starts_with(b"read/") {
            Answer::NoRead
        } else {
            Answer::NoTransaction
        };
        self.meet(alloc, answer, keyword)
    }

    fn meet(&mut self, alloc: Global, answer: Answer, name: &[u8]) -> Result<()> {
        for met in self.met.iter() {
            if met.answer == answer && met.name.as_slice() == name {
                return Ok(());
            }
        }
        let mut copy = Vec::new(alloc);
        copy.extend_from_slice(name)?;
        self.met.push(Met { answer, name: copy })?;
        Ok(())
    }
}

/// Whether the reply to a command with the word has a datom, or a tree.
fn finds(word: &str, line: &[u8]) -> bool {
    match word {
        "pull" => !line.ends_with(b":pull nil}\n"),
        "with" => line.ends_with(b"]]}}\n") || line.ends_with(b"]]}]}}\n"),
        _ => line.ends_with(b"]]}\n") || line.ends_with(b"]]}]}\n"),
    }
}

/// The word of a command, and nothing for another form.
fn word_of(form: &Edn) -> &str {
    let Edn::Vector(members) = form else {
        return "";
    };
    match members.as_slice() {
        [Edn::Key(word), ..] => word.as_str(),
        _ => "",
    }
}
