//! The folded stacks of a ledger, as a text for viewers of flame graphs.
//!
//! A thread's frames are visited in the order of their stacks, and none is kept but those that are pending, which are no more than
//! the spans have stretches. Each frame costs a step for each stretch of time that has it; of spans that nest that is one for each
//! span, and of spans that cross at most as many as are open.

mod descent;
mod ends;
mod fault;
mod framed;
mod frames;
mod label;
mod labelled;
pub mod laws;
mod pending;
mod ranks;
mod text;

pub use fault::StacksFault;
pub use framed::{StackFrame, framed_stacks};
pub use frames::put_frame;
pub use label::SpanColumn;
pub use labelled::LabelledSpans;
pub use text::folded;
