//! The merged texts of names: without the arguments of their templates.
#![tactic(auto)]

mod marks;
mod merging;

pub use merging::merged;
