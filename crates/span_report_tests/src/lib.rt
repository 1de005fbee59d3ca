//! What `span_report` and `span_comparisons` promise, where no run of the program shows it.
#![tactic(auto)]

#[cfg(test)]
mod tests;
