// A wallet: covers laid out over any store, and levels that its keys show in them.
#![tactic(auto)]

mod exclusive_or;
pub mod laws;
mod layout;
mod level;
pub mod wallet;
pub mod worked;
