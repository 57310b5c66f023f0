//! What no contract says of disks, journals and ports: what files and clocks of the system do, and that calls which take memory succeed.
//! Each file is named for the crate that it tests, with `_tests` after it, since no module may have the name of a library.
#![tactic(auto)]

#[cfg(test)]
mod fb_journal_tests;
#[cfg(test)]
mod laid_tests;
#[cfg(test)]
mod mem_ports_tests;
#[cfg(test)]
mod real_ports_tests;
