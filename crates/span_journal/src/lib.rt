//! What a journal holds: operations with their answers, queries with their replies, and the rows that it gives. Its definitions say
//! what the sequential ledger answers.
//! A tick is a microsecond or a nanosecond, as the run counts.
#![tactic(auto)]

mod entry;
mod kind;
pub mod laws;
mod query;
mod refusal;
mod reply;
mod rows;

pub use entry::{Answer, Entry, Op};
pub use kind::Kind;
pub use query::Query;
pub use refusal::{Back, Cause};
pub use reply::{BoxedReply, Reply, copy_of};
pub use rows::{CountRow, ProcessRow, SpanRow, ThreadRow};
pub use span_event::Text;
