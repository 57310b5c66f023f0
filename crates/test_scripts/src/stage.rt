//! Scripts are run, and compared with what they should reply.
use crate::compared::are_same;
use crate::drawn::commands;
use crate::plain::PlainScript;
use crate::rows::{Row, TERMS, Terms};
use crate::tally::Tally;
use crate::worlds::{World, drawn_world};
use crate::{merges, session};
use anyhow::{Result, bail};
use std::alloc::Global;
use std::io::Write;
use std::sync::Wait;
use std::thread::Threads;
use test_data::Dice;

/// What scripts run on, and where it is said that a line is another one than it should be.
#[derive(Drop)]
pub(crate) struct Stage<'a, R, W> {
    pub(crate) rt: &'a R,
    pub(crate) alloc: Global,
    pub(crate) out: &'a mut W,
}

/// A script with more bytes than these has thousands of values, for which the plain session is too slow.
const LONG: usize = 20_000;

impl<R: Threads + Wait + Sync, W: Write> Stage<'_, R, W> {
    /// The scripts of a table.
    pub(crate) fn run_rows(&mut self, rows: &[Row]) -> Result<()> {
        for row in rows {
            self.run_row(row)?;
        }
        Ok(())
    }

    /// A script of a table, with merges and without, and by the plain session.
    fn run_row(&mut self, row: &Row) -> Result<()> {
        let name = row.name.as_str();
        let script = row.script.as_str().as_bytes();
        let wanted = row.replies.as_str().as_bytes();
        let lines = session::lines(self.rt, self.alloc, script, row.terms)?;
        if !are_same(self.out, name, script, wanted, &lines)? {
            bail!("a script is answered otherwise than the table says");
        }
        if script.len() < LONG {
            self.run_by_plain(row)?;
        }
        self.run_with_merges(script, &lines, row.terms)
    }

    fn run_by_plain(&mut self, row: &Row) -> Result<()> {
        let plain = PlainScript::of(self.alloc, row.script.as_str(), row.terms)?;
        let script = row.script.as_str().as_bytes();
        let wanted = row.replies.as_str().as_bytes();
        if !are_same(self.out, row.name.as_str(), script, wanted, &plain.lines)? {
            bail!("the plain session answers otherwise than the table says");
        }
        Ok(())
    }

    /// So many worlds, and so many scripts in each, that are drawn from the seed.
    pub(crate) fn run_drawn(&mut self, worlds: u32, scripts: u32, seed: u64) -> Result<Tally> {
        let mut dice = Dice::new(seed);
        let mut tally = Tally::new(self.alloc);
        for _ in 0..worlds {
            self.run_world(scripts, &mut dice, &mut tally)?;
        }
        Ok(tally)
    }

    fn run_world(&mut self, scripts: u32, dice: &mut Dice, tally: &mut Tally) -> Result<()> {
        let world = drawn_world(self.alloc, dice)?;
        self.run_in(&world, scripts, dice, tally)
    }

    fn run_in(
        &mut self,
        world: &World,
        scripts: u32,
        dice: &mut Dice,
        tally: &mut Tally,
    ) -> Result<()> {
        let begun = PlainScript::of(self.alloc, world.commands.as_str(), TERMS)?;
        for _ in 0..scripts {
            self.run_on(world, &begun, dice, tally)?;
        }
        Ok(())
    }

    /// One script: the world's commands, and drawn ones after them.
    fn run_on(
        &mut self,
        world: &World,
        begun: &PlainScript,
        dice: &mut Dice,
        tally: &mut Tally,
    ) -> Result<()> {
        let commands = commands(self.alloc, dice, world)?;
        let plain = begun.followed_by(commands.as_str())?;
        self.run_as_plain(&plain, tally)
    }

    /// A script that the plain session has answered.
    fn run_as_plain(&mut self, plain: &PlainScript, tally: &mut Tally) -> Result<()> {
        let script = plain.script.as_str().as_bytes();
        let lines = session::lines(self.rt, self.alloc, script, TERMS)?;
        if !are_same(self.out, "a drawn script", script, &plain.lines, &lines)? {
            bail!("a drawn script is answered otherwise than the plain session says");
        }
        tally.count(self.alloc, script, &lines)?;
        self.run_with_merges(script, &lines, TERMS)
    }

    /// Requests for merges change no other line.
    fn run_with_merges(&mut self, script: &[u8], lines: &[u8], terms: Terms) -> Result<()> {
        let more = merges::with_merges(self.alloc, script)?;
        let among = session::lines(self.rt, self.alloc, &more, terms)?;
        let others = merges::other_lines(self.alloc, &among)?;
        if !are_same(self.out, "with merges", script, lines, &others)? {
            bail!("a merge changes a line");
        }
        Ok(())
    }
}
