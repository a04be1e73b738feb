// Stores of 512-byte blocks: what one means, and the kinds there are.
#![tactic(auto)]

mod condemned;
pub mod image;
pub mod interface;
pub mod liveness;
pub mod memory;
pub mod padding;
pub mod plain;
pub mod pocket;
pub mod stripe;
