// The laws on whole runs of wallet calls: each level as if alone, and nothing told of the levels withheld.
#![tactic(auto)]

pub mod laws;
