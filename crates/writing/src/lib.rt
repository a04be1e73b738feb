// Volumes formatted and files created, written and removed, over any store.
#![tactic(auto)]

pub mod create;
pub mod remove;
mod vacancy;
pub mod worked;
pub mod write;
