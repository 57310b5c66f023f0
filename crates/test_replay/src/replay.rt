//! The replay, in the order of the lines' places.
use crate::plain::{answer, next_form};
use crate::stop::Stop;
use crate::track::{Served, Track, word_of};
use anyhow::{Result, bail};
use edn_core::read_form;
use edn_form::Edn;
use plain_session::PlainSession;
use std::alloc::Global;
use std::ops::Range;

/// A plain session that replays what sessions were answered, of a log that may stop.
#[derive(Drop)]
pub struct Replay<'a> {
    alloc: Global,
    pub plain: PlainSession,
    stop: Option<Stop>,
    /// The transaction that met the stop.
    pub torn: Option<Torn<'a>>,
}

/// A script from a transaction on, that transaction, and what follows it.
#[derive(Clone, Copy)]
pub struct Torn<'a> {
    pub script: &'a str,
    pub form: &'a str,
    pub rest: &'a str,
}

impl<'a> Replay<'a> {
    /// It goes on from the plain session's history. The log does not take the t at which it stops.
    pub fn new(alloc: Global, plain: PlainSession, stop: Option<u32>) -> Result<Replay<'a>> {
        let stop = match stop {
            Some(t) => Some(Stop::at(alloc, t)?),
            None => None,
        };
        Ok(Replay {
            alloc,
            plain,
            stop,
            torn: None,
        })
    }

    /// Replays all lines of the sessions, from the t at which they began to that of the last entry.
    pub fn replay(&mut self, sessions: &[Served<'a>], ts: Range<u32>) -> Result<()> {
        let mut tracks = Vec::new(self.alloc);
        for session in sessions {
            tracks.push(Track::of(self.alloc, *session))?;
        }
        self.replay_at(&mut tracks, ts.start)?;
        for t in ts {
            let t = t.saturating_add(1);
            self.replay_commit(&mut tracks, t)?;
            self.replay_at(&mut tracks, t)?;
        }
        if !tracks.iter().all(|track| track.is_over()) {
            bail!("a line has an earlier place than the one before");
        }
        Ok(())
    }

    /// Replays the line of the one transaction that has this t.
    fn replay_commit(&mut self, tracks: &mut Vec<Track<'a>>, t: u32) -> Result<()> {
        let mut authors = 0_u32;
        for track in tracks.iter_mut() {
            if track.takes_commit(t) {
                authors = authors.saturating_add(1);
                self.replay_line(track, t)?;
            }
        }
        if authors != 1 {
            bail!("t {t} is not one commit");
        }
        Ok(())
    }

    /// Replays what every session was answered at this t.
    fn replay_at(&mut self, tracks: &mut Vec<Track<'a>>, t: u32) -> Result<()> {
        for track in tracks.iter_mut() {
            if track.is_at(t) {
                self.look_as(track)?;
                self.replay_lines(track, t)?;
            }
        }
        Ok(())
    }

    /// The plain session sees from now on what this session sees.
    fn look_as(&mut self, track: &Track<'_>) -> Result<()> {
        let Ok(Some((unfilter, _))) = read_form(self.alloc, b"[:unfilter]", 0) else {
            bail!("a command cannot be read");
        };
        self.plain.reply(&unfilter)?;
        for turn in track.turns.iter() {
            self.plain.reply(turn)?;
        }
        Ok(())
    }

    /// Replays the lines that are next and have this place.
    fn replay_lines(&mut self, track: &mut Track<'a>, t: u32) -> Result<()> {
        for _ in 0..track.len() {
            if track.is_at(t) {
                self.replay_line(track, t)?;
            }
        }
        Ok(())
    }

    fn replay_line(&mut self, track: &mut Track<'a>, t: u32) -> Result<()> {
        if !track.is_at(t) {
            bail!("a line has no place");
        }
        match next_form(self.alloc, track.script, track.at)? {
            Some((form, behind)) => self.replay_form(track, form, behind),
            None => bail!("a line answers no form"),
        }
    }

    fn replay_form(&mut self, track: &mut Track<'a>, form: Edn, behind: usize) -> Result<()> {
        if word_of(&form) != "transact" {
            self.replay_plainly(track, &form)?;
        } else if !self.is_stopped(track, behind) {
            if track.is_told {
                bail!("a transaction is answered behind the stop");
            }
            self.replay_plainly(track, &form)?;
        }
        track.pass(form, behind)
    }

    fn replay_plainly(&mut self, track: &mut Track<'_>, form: &Edn) -> Result<()> {
        let mut line = Vec::new(self.alloc);
        answer(&mut self.plain, form, &mut line)?;
        if !track.takes(line.as_slice()) {
            bail!("a line is not the plain session's");
        }
        Ok(())
    }

    /// Whether the next line, that of a transaction, reports the stop. One transaction meets it.
    fn is_stopped(&mut self, track: &mut Track<'a>, behind: usize) -> bool {
        let Some(stop) = &self.stop else {
            return false;
        };
        if self.torn.is_none() && track.takes(stop.met.as_str().as_bytes()) {
            track.is_told = true;
            self.torn = Some(Torn {
                script: track.script.get(track.at..).unwrap_or(""),
                form: track.script.get(track.at..behind).unwrap_or(""),
                rest: track.script.get(behind..).unwrap_or(""),
            });
        } else if track.takes(stop.behind.as_str().as_bytes()) {
            track.is_told = true;
        } else {
            return false;
        }
        true
    }
}
