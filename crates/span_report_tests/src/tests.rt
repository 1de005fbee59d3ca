//! Outputs that fail or take few bytes, and repeated runs of which a side has none.

mod output;
mod outputs;
mod repetitions;
mod told;
