//! What is still to be replayed of a session.
use anyhow::Result;
use edn_form::Edn;
use std::alloc::Global;

/// What a session asked and was answered. Each line has a place, the t of the last entry that it rests on, and each t that the session
/// committed is named.
#[derive(Clone, Copy)]
pub struct Served<'a> {
    pub script: &'a str,
    pub lines: &'a [u8],
    pub places: &'a [u32],
    pub commits: &'a [u32],
}

#[derive(Drop)]
pub(crate) struct Track<'a> {
    pub(crate) script: &'a str,
    /// Where its next form begins.
    pub(crate) at: usize,
    lines: &'a [u8],
    places: &'a [u32],
    commits: &'a [u32],
    /// The commands that say what the session sees.
    pub(crate) turns: Vec<Edn>,
    /// Whether it was notified that the log has stopped.
    pub(crate) is_told: bool,
}

impl<'a> Track<'a> {
    pub(crate) fn of(alloc: Global, served: Served<'a>) -> Track<'a> {
        let Served {
            script,
            lines,
            places,
            commits,
        } = served;
        Track {
            script,
            at: 0,
            lines,
            places,
            commits,
            turns: Vec::new(alloc),
            is_told: false,
        }
    }

    pub(crate) fn is_over(&self) -> bool {
        self.lines.is_empty() && self.commits.is_empty()
    }

    pub(crate) fn len(&self) -> usize {
        self.places.len()
    }

    /// Whether the next line has this place.
    pub(crate) fn is_at(&self, t: u32) -> bool {
        self.places.first() == Some(&t)
    }

    /// Whether this is the next t that the session committed, which is then over.
    pub(crate) fn takes_commit(&mut self, t: u32) -> bool {
        if self.commits.first() != Some(&t) {
            return false;
        }
        self.commits = self.commits.get(1..).unwrap_or(&[]);
        true
    }

    /// Whether this is the next line, which is then over.
    pub(crate) fn takes(&mut self, line: &[u8]) -> bool {
        let Some(lines) = self.lines.strip_prefix(line) else {
            return false;
        };
        self.lines = lines;
        self.places = self.places.get(1..).unwrap_or(&[]);
        true
    }

    /// Goes on after a form, and keeps it if it says what the session sees.
    pub(crate) fn pass(&mut self, form: Edn, behind: usize) -> Result<()> {
        self.at = behind;
        match word_of(&form) {
            "unfilter" => self.turns.clear(),
            "as-of" | "since" | "history" | "filter" => self.turns.push(form)?,
            _ => {}
        }
        Ok(())
    }
}

/// The word of a command, and nothing for another form.
pub(crate) fn word_of(form: &Edn) -> &str {
    let Edn::Vector(members) = form else {
        return "";
    };
    match members.as_slice() {
        [Edn::Key(word), ..] => word.as_str(),
        _ => "",
    }
}
