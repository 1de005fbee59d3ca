//! What `span_collect` promises, tried through its public calls.
#![tactic(auto)]

#[cfg(test)]
mod tests;
