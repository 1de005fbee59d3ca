//! What `span_read` promises, tried through its public calls.
#![tactic(auto)]

#[cfg(test)]
mod tests;
