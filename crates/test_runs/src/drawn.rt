//! Scripts that are drawn from a seed. Most of their commands speak of the same few entities, so that sessions get into each other's
//! way.
use anyhow::Result;
use std::alloc::Global;
use test_data::{Dice, PEOPLE, SCHEMA, data};

const SEED: u64 = 20_261_129;

/// An attribute of which the program's guard speaks.
const EMAIL: &str =
    "{:db/ident :person/email :db/valueType :db.type/string :db/cardinality :db.cardinality/one :db/unique :db.unique/identity}";

/// Commands in which `~` stands for a digit that is drawn, and `%` for the number of the session.
const COMMANDS: [&str; 28] = [
    "[:transact [{:g/id \"own %-~\" :g/one ~ :g/many [~ 7]}]]",
    "[:transact [{:g/id \"own %-~\" :g/one ~ :g/ref [:g/id \"k~\"]}]]",
    "[:transact [[:db/retract [:g/id \"own %-~\"] :g/many]]]",
    "[:transact [[:db/retractEntity [:g/id \"own %-~\"]]]]",
    "[:transact [{:db/id \"x\" :g/id \"k~\" :g/key ~}]]",
    "[:transact [{:db/id \"x\" :g/held ~} [:db/add \"x\" :db/doc \"by %\"]]]",
    "[:transact [[:db/cas [:g/id \"k~\"] :g/one ~ ~]]]",
    "[:transact []]",
    "[:db]",
    "[:db]",
    "[:db]",
    "[:sync]",
    "[:request-index]",
    "[:datoms :eavt [:g/id \"k~\"]]",
    "[:datoms :avet :g/key ~]",
    "[:datoms :vaet 1759218604442~]",
    "[:datoms :aevt :g/held]",
    "[:seek :avet :g/id \"own %-~\"]",
    "[:index-range :g/key ~ nil]",
    "[:tx-range 1~ 1~]",
    "[:pull [* {:g/part ...} {:g/_ref 1}] [:g/id \"k~\"]]",
    "[:pull [:g/id :g/many {:g/ref 3}] [:g/id \"own %-~\"]]",
    "[:pull [:g/one :g/_to {:g/_part [:g/id]}] 17592186044428]",
    "[:as-of 2~]",
    "[:since ~]",
    "[:history]",
    "[:filter :positive]",
    "[:unfilter]",
];

/// Commands of which the program's guard bars some.
const BARRED_COMMANDS: [&str; 14] = [
    "[:transact [{:person/email \"e~\" :db/doc \"by %\"}]]",
    "[:transact [{:person/email \"e~\" :db/doc \"~\"}]]",
    "[:transact [{:person/email \"e~\"}]]",
    "[:transact [{:person/email \"e~\" :db/doc \"\"}]]",
    "[:transact [[:db/add \"x\" :db/doc \"\"]]]",
    "[:transact [[:db/add \"x\" :db/doc \"x\"]]]",
    "[:transact [[:db/retract [:person/email \"e~\"] :db/doc]]]",
    "[:transact [[:db/retract [:person/email \"e~\"] :db/doc \"~\"] [:db/add \"x\" :db/doc \"~\"]]]",
    "[:transact [[:db/retract [:person/email \"e~\"] :person/email]]]",
    "[:transact [[:db/retractEntity [:person/email \"e~\"]]]]",
    "[:transact []]",
    "[:db]",
    "[:datoms :aevt :person/email]",
    "[:pull [*] [:person/email \"e~\"]]",
];

/// Two scripts of so many of these commands, over one attribute.
pub(crate) fn barred_scripts(alloc: Global, commands: u32) -> Result<Vec<String>> {
    let mut dice = Dice::new(SEED);
    let mut scripts = Vec::new(alloc);
    for session in 0..2 {
        scripts.push(barred_script(alloc, &mut dice, session, commands)?)?;
    }
    Ok(scripts)
}

fn barred_script(alloc: Global, dice: &mut Dice, session: usize, commands: u32) -> Result<String> {
    let mut out = String::new(alloc);
    writeln!(out, "[:transact [{EMAIL}]]")?;
    for _ in 0..commands {
        let command = dice.pick(&BARRED_COMMANDS);
        fill(dice, command, session, &mut out)?;
        out.push('\n')?;
    }
    Ok(out)
}

/// A script for each session, of so many drawn commands.
pub(crate) fn scripts(alloc: Global, sessions: usize, commands: u32) -> Result<Vec<String>> {
    let mut dice = Dice::new(SEED);
    let mut scripts = Vec::new(alloc);
    for session in 0..sessions {
        scripts.push(script(alloc, &mut dice, session, commands)?)?;
    }
    Ok(scripts)
}

fn script(alloc: Global, dice: &mut Dice, session: usize, commands: u32) -> Result<String> {
    let mut out = String::new(alloc);
    add_script(alloc, dice, session, commands, &mut out)?;
    Ok(out)
}

/// One script with so many datoms in it that merges are due beside it.
pub(crate) fn long_script(alloc: Global) -> Result<String> {
    let mut out = String::new(alloc);
    add_long_script(alloc, &mut out)?;
    Ok(out)
}

fn add_long_script(alloc: Global, out: &mut String) -> Result<()> {
    let mut dice = Dice::new(SEED);
    add_script(alloc, &mut dice, 0, 100, out)?;
    add_many_datoms(out)?;
    add_script(alloc, &mut dice, 1, 100, out)
}

/// The script of a session. It begins with the schema and the entities that every session asks for, and ends with the whole log.
fn add_script(
    alloc: Global,
    dice: &mut Dice,
    session: usize,
    commands: u32,
    out: &mut String,
) -> Result<()> {
    write!(out, "[:transact {SCHEMA}]\n[:transact {PEOPLE}]\n")?;
    for _ in 0..commands {
        add_command(alloc, dice, session, out)?;
    }
    out.push_str("[:unfilter] [:sync] [:tx-range 1 nil]\n")?;
    Ok(())
}

fn add_command(alloc: Global, dice: &mut Dice, session: usize, out: &mut String) -> Result<()> {
    match dice.roll(8) {
        0 => write!(out, "[:transact {}]", data(alloc, dice)?.as_str())?,
        1 => out.push_str("[:unfilter]")?,
        _ => {
            let command = dice.pick(&COMMANDS);
            fill(dice, command, session, out)?
        }
    }
    out.push('\n')?;
    Ok(())
}

/// A command with its digits.
fn fill(dice: &mut Dice, command: &str, session: usize, out: &mut String) -> Result<()> {
    for letter in command.chars() {
        match letter {
            '~' => write!(out, "{}", dice.roll(4))?,
            '%' => write!(out, "{session}")?,
            _ => out.push(letter)?,
        }
    }
    Ok(())
}

/// A transaction of 1,500 datoms.
fn add_many_datoms(out: &mut String) -> Result<()> {
    out.push_str("[:transact [{:g/id \"k1\" :g/many [")?;
    for n in 0..1500 {
        write!(out, "{n} ")?;
    }
    out.push_str("]}]]\n")?;
    Ok(())
}
