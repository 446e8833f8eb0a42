//! Scenes over several crates. There is nothing here but tests.
#![tactic(auto)]

#[cfg(test)]
mod tests;
