// Keys over the covers of a wallet: their algebra and the table of the standing ones.
#![tactic(auto)]

mod algebra;
pub mod laws;
pub mod table;
pub mod worked;
