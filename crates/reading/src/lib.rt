// Files found by name, listed and read, over any store.
#![tactic(auto)]

pub mod file;
pub mod list;
pub mod lookup;
pub mod read;
