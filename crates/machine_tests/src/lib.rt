//! Tests of `machine` through its public calls. There is nothing here but tests: a crate with tests
//! is proved twice, so theirs stand here together.
#![tactic(auto)]

#[cfg(test)]
mod tests;
