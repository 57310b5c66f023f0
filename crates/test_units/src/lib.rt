//! What no contract says of the crates that no program of the gate shows: that calls which take memory succeed, what errors say, how
//! full leaves are, and that long lists are judged in time. Each file is named for the crate that it tests, with `_tests` after it,
//! since no module may have the name of a library.
#![tactic(auto)]

#[cfg(test)]
mod edn_form_tests;
#[cfg(test)]
mod fb_memory_tests;
#[cfg(test)]
mod fb_preds_tests;
#[cfg(test)]
mod fb_prefix_tests;
#[cfg(test)]
mod fb_replies_tests;
#[cfg(test)]
mod held_facts_tests;
#[cfg(test)]
mod log_sweep_tests;
#[cfg(test)]
mod seg_tree_tests;
#[cfg(test)]
mod tx_laws_tests;
