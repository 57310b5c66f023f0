//! The board at work: a book of numbers to which many threads add. Proved is what the board promises them; that they get through, and what
//! they meet, is only printed here.
#![tactic(auto)]

mod book;
mod crew;
mod rounds;
mod scenes;

ghost use Rattle.std.specs.Prelude.{◌<◌, ◌≤◌};

use anyhow::Result;
use book::Book;
use crew::{Report, run};
use fb_memory::Memory;
use scenes::{Readings, reader_holds, stops, two_readings};
use std::alloc::Global;
use std::sync::Wait;
use std::thread::Threads;

/// What threads did to a book.
#[derive(Clone, Copy, Debug)]
struct Work {
    /// How many numbers they added, by their own count.
    added: u64,
    /// Each number is there once, with its author.
    each_once: bool,
    /// The mail of one of them went back.
    fell: bool,
}

/// So many threads add so many numbers each.
fn done_by<R: Threads + Wait + Sync>(
    alloc: Global,
    rt: &R,
    count: u32,
    rounds: u32,
) -> Result<Work, Memory>
    requires count { (0 < count) × (count ≤ 64) }
    requires rounds { (0 < rounds) × (rounds ≤ 10000) }
{
    let Report { book, added, fell } = run(alloc, rt, 1, count, rounds)?;
    let each_once = has_each_number_once(book, rounds);
    Ok(Work {
        added,
        each_once,
        fell,
    })
}

/// Each number below `count` times `rounds` is in the book once, after the first 0, and names its worker as the author.
fn has_each_number_once(book: Book, rounds: u32) -> bool
    requires { 0 < rounds }
{
    for (number, author) in book.entries.iter().skip(1).zip(book.authors.iter()) {
        if *number / rounds != *author {
            return false;
        }
    }
    let mut numbers = book.entries;
    numbers.sort_unstable();
    for (i, number) in numbers.iter().enumerate() {
        if *number as usize != i.saturating_sub(1) {
            return false;
        }
    }
    true
}

/// Whether the book of serial number 7 begins as the two seats read it.
fn is_read_as_it_begins<R: Wait>(alloc: Global, rt: &R) -> Result<bool, Memory> {
    let Readings {
        book,
        first,
        second,
    } = two_readings(alloc, rt, 7)?;
    Ok(
        book.serial == 7
            && first.entries.as_slice() == [0, 1].as_slice()
            && second.entries.as_slice() == [0, 1, 2].as_slice()
            && book.entries.as_slice() == [0, 1, 2].as_slice(),
    )
}

fn main(rt: HostRuntime) -> Result<()> {
    let alloc = rt.alloc();
    println!(rt;
        "2 threads, 300 numbers each: {:?}",
        done_by(alloc, &rt, 2, 300)?
    )?;
    println!(rt;
        "16 threads, 200 numbers each: {:?}",
        done_by(alloc, &rt, 16, 200)?
    )?;
    // More threads than there are beds to sleep in.
    println!(rt;
        "40 threads, 50 numbers each: {:?}",
        done_by(alloc, &rt, 40, 50)?
    )?;
    println!(rt;
        "a reader that holds its word: {:?}",
        reader_holds(alloc, &rt)?
    )?;
    println!(rt;
        "a round, a stop, a second stop, two rounds: {:?}",
        stops(alloc, &rt)?
    )?;
    println!(rt;
        "the book begins as it was read: {}",
        is_read_as_it_begins(alloc, &rt)?
    )?;
    Ok(())
}
