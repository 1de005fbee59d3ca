//! What no line of the example can say of the ledger and its tracks.
#![tactic(auto)]

#[cfg(test)]
mod tests;
