//! The closed spans of a thread, by their labels.
ghost use Rattle.std.specs.Prelude.{◌≡◌, ◌≤◌, length, IfOk};
ghost use Rattle.span_report.specs.{AreThreadSpans, Stacks.{Labelled.relabelled, Labels.labelled_spans}};

use super::label::{SpanColumn, are_names, labels_of};
use span_event::{Text, Thread};
use span_ledger::{Ledger, NamedSpan};
use std::alloc::{AllocError, Global};
use std::marker::Model;

/// The closed spans of a thread of a ledger, each with its label in place of its name. It keeps the texts of the labels, which
/// stacks borrow; where labels are names it keeps none, and stacks borrow the names.
#[derive(Drop)]
pub struct LabelledSpans<'a> {
    ledger: &'a Ledger,
    thread: Thread,
    // One for each span, in the order of the ledger, or none at all where each is the name.
    labels: Vec<Text>,
}

impl<'a> Model for LabelledSpans<'a> {
    ghost use Rattle.std.specs.Prelude.{◌≤◌, length, List};
    ghost use Rattle.span_report.specs.{Bytes, Span, closed_spans, thread_events, Stacks.Labelled.relabelled};

    ghost Value = { List (Span Bytes) };

    ghost view = { λ l. relabelled l.labels.items (closed_spans (thread_events l.thread l.ledger.now.journal)) };

    ghost invariant = { λ l. length l.labels.items ≤ length (closed_spans (thread_events l.thread l.ledger.now.journal)) };
}

impl<'a> LabelledSpans<'a> {
    /// The closed spans of a thread, in the order of the events that closed them, with what they have in the columns for labels.
    /// Takes no memory where the only column is the name.
    pub fn of_thread(
        alloc: Global,
        ledger: &'a Ledger,
        thread: Thread,
        columns: &[SpanColumn],
    ) -> Result<LabelledSpans<'a>, AllocError>
        ensures { IfOk result (λ spans.
            spans ≡ labelled_spans columns.now ledger.now.journal thread) }
    {
        let labels = if are_names(columns) {
            Vec::new(alloc)
        } else {
            let spans = ledger.closed_spans(alloc, thread.pid, thread.tid)?;
            labels_of(alloc, &spans, columns)?
        };
        Ok(LabelledSpans {
            ledger,
            thread,
            labels,
        })
    }

    // The spans themselves, which borrow their labels.
    pub(crate) fn spans(&self, alloc: Global) -> Result<Vec<NamedSpan<'_>>, AllocError>
        ensures spans { IfOk result (λ spans. spans.items ≡ self.now) }
        ensures are { IfOk result (λ spans. AreThreadSpans spans.items) }
    {
        let mut spans = self
            .ledger
            .closed_spans(alloc, self.thread.pid, self.thread.tid)?;
        put_labels(&mut spans, &self.labels);
        Ok(spans)
    }
}

// Puts labels in the place of names, as far as there are labels.
fn put_labels<'a>(spans: &mut [NamedSpan<'a>], labels: &'a [Text])
    requires { length labels.now ≤ length spans.old }
    ensures { spans.new ≡ relabelled labels.now spans.old }
{
    for i in 0..labels.len() {
        let span = &mut spans[i];
        span.name = &labels[i];
    }
}
