//! Half a million numbers of ten entities, merged into trees, are asked for one by one. A scan that visited all of them each time
//! would make 10^11 visits, and not end.
#![tactic(auto)]

mod asked;
mod database;
mod everything;
mod tuples;

use anyhow::{Result, bail};
use database::{FIRST_ENTITY, FIRST_T, NUMBER, NUMBERS_EACH, grown};
use everything::Everything;
use fb_db::Db;
use fb_memory::Memory;
use fb_scan::datoms;
use fb_values::{Order, Probe, Value};
use std::alloc::Global;
use tuples::grow_and_compare;

/// How many numbers there are in all.
const NUMBERS: u32 = 500_000;

const ASKED: u32 = 200_000;

/// It shares no divisor with `NUMBERS`, so no number is asked for twice.
const STEP: u32 = 7_919;

/// Whether the entity that has the number has it alone in a scan, said by the transaction that made the entity.
fn is_found(alloc: Global, db: &Db<Everything>, number: u32) -> Result<bool, Memory> {
    let nth = number / NUMBERS_EACH;
    let probe = Probe {
        order: Order::Eavt,
        e: Some(FIRST_ENTITY + u64::from(nth)),
        a: Some(NUMBER),
        v: Some(Value::Long(i64::from(number))),
        t: None,
    };
    let found = datoms(alloc, db, &probe)?;
    Ok(match found.as_slice() {
        [one] => one.t == FIRST_T + nth,
        _ => false,
    })
}

fn find_each(alloc: Global, db: &Db<Everything>) -> Result<()> {
    for nth in 0..ASKED {
        let number = nth * STEP % NUMBERS;
        if !is_found(alloc, db, number)? {
            bail!("a scan does not find {number} alone");
        }
    }
    Ok(())
}

fn main(rt: HostRuntime) -> Result<()> {
    let alloc = rt.alloc();
    let db = Db::of(grown(&rt, alloc)?, Everything);
    find_each(alloc, &db)?;
    println!(rt; "{ASKED} of {NUMBERS} numbers are found, each by a scan of its own")?;
    let ranges = grow_and_compare(alloc)?;
    println!(rt; "{ranges} ranges of tuples are what filters leave")?;
    Ok(())
}
