//! The thread that has a stack.
ghost use Rattle.std.specs.Prelude.{◌≡◌, ◌∷◌, map, IfOk};
ghost use Rattle.span_stack_sums.specs.{holder_name, Stacks.label_values};

use span_event::{Text, Thread};
use span_ledger::Ledger;
use span_table::{ArgValue, Key, copy_of, words_of};
use std::alloc::{AllocError, Global};

/// The names of a process and a thread, if they have any.
#[derive(Drop)]
pub(crate) struct Owner {
    process: Option<ArgValue>,
    thread: Option<ArgValue>,
}

impl Owner {
    pub(crate) fn of(alloc: Global, ledger: &Ledger, thread: Thread) -> Result<Owner, AllocError>
        ensures process { IfOk result (λ owner. owner.process
            ≡ holder_name ledger.now.journal (thread.pid, None)) }
        ensures thread { IfOk result (λ owner. owner.thread
            ≡ holder_name ledger.now.journal (thread.pid, Some thread.tid)) }
    {
        Ok(Owner {
            process: words_of(alloc, ledger.process_name(thread.pid))?,
            thread: words_of(alloc, ledger.thread_name(thread.pid, thread.tid))?,
        })
    }

    /// The key of a stack: the names, and the labels of its frames.
    pub(crate) fn key_of(&self, alloc: Global, stack: &[&Text]) -> Result<Key, AllocError>
        ensures { IfOk result (λ key. key ≡ self.now.process
            ∷ self.now.thread ∷ label_values (map (λ label. label.now) stack.now)) }
    {
        let mut values = Vec::with_capacity(alloc, stack.len().saturating_add(2))?;
        values.push(copy_of(alloc, self.process.as_ref())?)?;
        values.push(copy_of(alloc, self.thread.as_ref())?)?;
        for label in stack {
            values.push(words_of(alloc, Some(label))?)?;
        }
        Ok(Key::of(values))
    }
}
