// The volume in a store, and whether it is sound.
#![tactic(auto)]

pub mod check;
pub mod contents;
pub mod directory;
mod each;
mod entered;
mod framed;
mod kinds;
pub mod loaded;
mod map;
mod numbers;
pub mod rule;
pub mod rules;
pub mod sound;
mod tally;
pub mod visit;
