// Volumes formatted, and the steps on blocks, records and the free list that the calls which change files are made of.
#![tactic(auto)]

mod blocks;
pub mod contents;
pub mod format;
pub mod free;
pub mod records;
