//! Whether the entries of a log make a lawful history, judged by sorting their datoms: in a few passes and with little
//! memory, where judging entry by entry keeps what holds in maps. It says yes of lawful histories alone, but it may say no
//! of one too, and never which law is broken: who has to know judges again.
#![tactic(auto)]

mod alone;
mod describing;
mod gathered;
mod law;
mod lawful;
mod sweep;
mod together;

pub use lawful::is_lawful;
