//! Opening the documented log, as it is and with bytes changed, the roots that a history agrees with, the newest root alone, backups, and
//! files with a hole.
#![tactic(auto)]

#[cfg(test)]
mod fb_backup_tests;
#[cfg(test)]
mod fb_recover_tests;
#[cfg(test)]
mod hole_tests;
#[cfg(test)]
mod newest_tests;
#[cfg(test)]
mod seg_agree_tests;
