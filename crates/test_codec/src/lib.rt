//! Tests of entries, values and merge records as bytes, and of a store of kept roots.
#![tactic(auto)]

#[cfg(test)]
mod fb_codec_tests;
#[cfg(test)]
mod seg_codec_tests;
#[cfg(test)]
mod seg_store_tests;
#[cfg(test)]
mod trees;
