//! Transactions that are drawn from a seed.
use crate::guard::NoEmptyText;
use crate::run::Run;
use anyhow::Result;
use std::alloc::Global;
use test_data::{Dice, PEOPLE, SCHEMA};

/// How many transactions are drawn for one history.
const ROUND: u32 = 20;

/// How many transactions were drawn, and which rules refused them, by their keywords.
#[derive(Drop)]
pub(crate) struct Tally {
    pub(crate) drawn: u32,
    pub(crate) refused: Vec<Vec<u8>>,
}

impl Tally {
    fn count(&mut self, alloc: Global, reply: &[u8]) -> Result<()> {
        self.drawn = self.drawn.saturating_add(1);
        let Some(reason) = reason_in(reply) else {
            return Ok(());
        };
        for other in self.refused.iter() {
            if other.as_slice() == reason {
                return Ok(());
            }
        }
        let mut copy = Vec::new(alloc);
        copy.extend_from_slice(reason)?;
        self.refused.push(copy)?;
        Ok(())
    }
}

/// Decides transactions on so many histories. On every other one the guard bars empty texts.
pub(crate) fn decided(alloc: Global, histories: u32, seed: u64) -> Result<Tally> {
    let mut dice = Dice::new(seed);
    let mut tally = Tally {
        drawn: 0,
        refused: Vec::new(alloc),
    };
    for i in 0..histories {
        let guard = NoEmptyText { bars: i % 2 == 1 };
        decide_round(alloc, guard, &mut dice, &mut tally)?;
    }
    Ok(tally)
}

fn decide_round(
    alloc: Global,
    guard: NoEmptyText,
    dice: &mut Dice,
    tally: &mut Tally,
) -> Result<()> {
    let mut run = Run::new(alloc, guard)?;
    decide_on(alloc, &mut run, dice, tally)
}

/// The history gains the schema and the people of which the transactions speak.
fn decide_on(alloc: Global, run: &mut Run, dice: &mut Dice, tally: &mut Tally) -> Result<()> {
    run.reply_to(SCHEMA.as_bytes())?;
    run.reply_to(PEOPLE.as_bytes())?;
    for _ in 0..ROUND {
        let data = test_data::data(alloc, dice)?;
        let reply = run.reply_to(data.as_bytes())?;
        tally.count(alloc, &reply)?;
    }
    Ok(())
}

/// The keyword after `{:refused `, if the reply begins with it.
fn reason_in(reply: &[u8]) -> Option<&[u8]> {
    let rest = reply.strip_prefix(b"{:refused ")?;
    rest.split(|byte| *byte == b' ').next()
}
