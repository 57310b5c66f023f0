//! A long chain of entities, pulled by every session in a thread of its own.
use crate::runs::{Ended, run_in_memory, texts_of};
use anyhow::{Result, bail};
use std::alloc::Global;
use std::sync::Wait;
use std::thread::Threads;

/// Each of so many sessions makes a chain and pulls it.
const SESSIONS: usize = 16;

/// The most maps that may be inside one another.
const LINKS: usize = 256;

const SCHEMA: &str = "[:transact [
    {:db/ident :c/name :db/valueType :db.type/long :db/cardinality :db.cardinality/one :db/unique :db.unique/identity}
    {:db/ident :c/next :db/valueType :db.type/ref :db/cardinality :db.cardinality/one}]]";

pub(crate) fn pull_chains<R: Print + Threads + Wait + Sync>(rt: &R, alloc: Global) -> Result<()> {
    let scripts = scripts(alloc)?;
    let texts = texts_of(alloc, scripts.as_slice())?;
    pull_in_each(rt, alloc, texts.as_slice())?;
    println!(rt; "{SESSIONS} sessions pull chains of {LINKS} maps")?;
    Ok(())
}

fn pull_in_each<R: Threads + Wait + Sync>(rt: &R, alloc: Global, scripts: &[&str]) -> Result<()> {
    let ended = run_in_memory(rt, alloc, "1", scripts)?;
    see_chains(alloc, &ended)
}

/// The last line of each session has to be its chain.
fn see_chains(alloc: Global, ended: &Ended) -> Result<()> {
    for (session, out) in ended.sessions.iter().enumerate() {
        let wanted = tree(alloc, session)?;
        if !out.sink.bytes().ends_with(wanted.as_str().as_bytes()) {
            bail!("a chain is not pulled as it is");
        }
    }
    Ok(())
}

fn scripts(alloc: Global) -> Result<Vec<String>> {
    let mut scripts = Vec::new(alloc);
    for session in 0..SESSIONS {
        scripts.push(script(alloc, session)?)?;
    }
    Ok(scripts)
}

/// It makes a chain, whose links have the session's number in their names, and pulls it.
fn script(alloc: Global, session: usize) -> Result<String> {
    let mut out = format!(in alloc; "{SCHEMA}\n[:transact [")?;
    add_links(session, &mut out)?;
    writeln!(
        out,
        "]] [:pull [:c/name {{:c/next ...}}] [:c/name 1{session:02}000]]"
    )?;
    Ok(out)
}

fn add_links(session: usize, out: &mut String) -> Result<()> {
    for link in 0..LINKS {
        writeln!(out, "[:db/add \"{link}\" :c/name 1{session:02}{link:03}]")?;
    }
    let mut before = 0;
    for link in 1..LINKS {
        writeln!(out, "[:db/add \"{before}\" :c/next \"{link}\"]")?;
        before = link;
    }
    Ok(())
}

/// The end of its last line.
fn tree(alloc: Global, session: usize) -> Result<String> {
    let mut out = format!(in alloc; " :pull {{:c/name 1{session:02}000")?;
    add_branches(session, &mut out)?;
    Ok(out)
}

fn add_branches(session: usize, out: &mut String) -> Result<()> {
    for link in 1..LINKS {
        write!(out, " :c/next {{:c/name 1{session:02}{link:03}")?;
    }
    for _ in 0..LINKS {
        out.push('}')?;
    }
    out.push_str("}\n")?;
    Ok(())
}
