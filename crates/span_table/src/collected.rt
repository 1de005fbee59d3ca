//! Adds the sums of a run: from the rows of names or of asynchronous keys, or span by span where the table asks spans for more.
ghost use Rattle.std.specs.{List.list_any, Option.option_map, Prelude.{◌≡◌, ◌∷◌, [], map, IfOk, IsTrue, OnOk}};
ghost use Rattle.span_table.specs.{AreSpans, distance, length_of, longest_async, spans_of, timed_spans, Collected.{KnowOuter, KnowParents, Takes, asks_each_span, asks_spans, keyed_span_row, outer_at, place_at, row_sums, span_at}, Columns.{async_value_at, is_of_parent, value_at}, Numbers.{asks_each, has_number}, Sums.{only, sums_of_span}, Tables.{async_sums, called, keyed_async, schema_sums, span_sums, thread_sums, with_only}, declared.number.Number.TheVariants.{Longest, Outer}};

use crate::column::Column;
use crate::groups::Groups;
use crate::key::Key;
use crate::number::{Number, has_number};
use crate::of::Of;
use crate::run::LedgerRun;
use crate::schema::Schema;
use crate::seen::{CalledSpan, SeenSpan};
use crate::sums::Sums;
use span_event::{Args, Thread};
use span_journal::SpanRow;
use span_keyed_tracks::{AsyncKey, AsyncRow};
use span_ledger::TimedSpan;
use span_parents::{outer, parents};
use std::alloc::{AllocError, Global};

/// A run, and the schema of the table for which it is summed.
#[derive(Clone, Copy)]
pub(crate) struct RunColumns<'r, 'a> {
    pub(crate) alloc: Global,
    pub(crate) run: &'r LedgerRun<'a>,
    pub(crate) schema: &'r Schema,
}

impl<'r, 'a> RunColumns<'r, 'a> {
    /// Adds the sums of the run.
    pub(crate) fn add_to(&self, groups: &mut Groups) -> Result<(), AllocError>
        ensures { OnOk result (Takes groups.old groups.new
            (schema_sums self.now.schema.now self.now.run.now)) }
    {
        let schema = self.schema;
        match schema.of {
            Of::Spans => self.add_closed(groups),
            Of::Async => self.add_async_rows(groups),
        }
    }

    // The sums of closed spans.
    fn add_closed(&self, groups: &mut Groups) -> Result<(), AllocError>
        ensures { OnOk result (Takes groups.old groups.new
            (map (with_only self.now.schema.now.numbers) (span_sums self.now.schema.now.columns self.now.run.now))) }
    {
        if self.asks_each_span() {
            return self.add_spans(groups);
        }
        self.add_rows(groups)
    }

    // Whether spans are asked for more than their names.
    fn asks_each_span(&self) -> bool
        ensures { result ≡ asks_each_span self.now.schema.now.columns self.now.schema.now.numbers }
    {
        let schema = self.schema;
        ask_spans(&schema.columns) || ask_each(self.numbers())
    }

    // The numbers of the table.
    fn numbers(&self) -> &'r [Number]
        ensures { result.now ≡ self.now.schema.now.numbers }
    {
        let schema = self.schema;
        &schema.numbers
    }

    // The sums of the rows of names, for a table that asks a span for no more than its name.
    fn add_rows(&self, groups: &mut Groups) -> Result<(), AllocError>
        ensures { OnOk result (Takes groups.old groups.new
            (map (with_only self.now.schema.now.numbers) (row_sums self.now.schema.now.columns self.now.run.now))) }
    {
        let run = self.run;
        let rows = run.ledger.span_rows(self.alloc)?;
        let none = Args::empty(self.alloc);
        for row in &rows {
            self.add_row(groups, row, &none)?;
        }
        Ok(())
    }

    // Adds a row, of whose spans no arguments are known.
    fn add_row<'x>(
        &self,
        groups: &mut Groups,
        row: &'x SpanRow,
        none: &'x Args,
    ) -> Result<(), AllocError>
        requires { none.now ≡ [] }
        ensures { OnOk result (Takes groups.old groups.new
            (with_only self.now.schema.now.numbers (keyed_span_row self.now.schema.now.columns self.now.run.now row.now) ∷ [])) }
    {
        let thread = Thread {
            pid: row.pid,
            tid: row.tid,
        };
        let seen = SeenSpan {
            thread,
            span: CalledSpan {
                name: &row.name,
                args: none,
            },
            parent: None,
        };
        let key = self.key_of(&seen)?;
        groups.add(key, Sums::of_row(row).only(self.numbers()))
    }

    // The sums of the rows of asynchronous keys.
    fn add_async_rows(&self, groups: &mut Groups) -> Result<(), AllocError>
        ensures { OnOk result (Takes groups.old groups.new
            (map (with_only self.now.schema.now.numbers) (async_sums self.now.schema.now.columns self.now.run.now))) }
    {
        let run = self.run;
        let rows = run.ledger.async_rows(self.alloc)?;
        for row in &rows {
            self.add_async_row(groups, row)?;
        }
        Ok(())
    }

    fn add_async_row(&self, groups: &mut Groups, row: &AsyncRow) -> Result<(), AllocError>
        ensures { OnOk result (Takes groups.old groups.new
            (with_only self.now.schema.now.numbers (keyed_async self.now.schema.now.columns self.now.run.now row.now) ∷ [])) }
    {
        let key = self.async_key_of(&row.key)?;
        let sums = Sums::of_async(row, self.longest_of(&row.key));
        groups.add(key, sums.only(self.numbers()))
    }

    // The length of the longest closed span of an asynchronous key, if that is asked for.
    fn longest_of(&self, key: &AsyncKey) -> u64
        ensures { IsTrue (has_number self.now.schema.now.numbers Longest)
            → result ≡ longest_async self.now.run.now.journal key.now }
    {
        if has_number(self.numbers(), Number::Longest) {
            let run = self.run;
            return run.ledger.longest_async(key);
        }
        0
    }

    // The sums of closed spans, one by one.
    fn add_spans(&self, groups: &mut Groups) -> Result<(), AllocError>
        ensures { OnOk result (Takes groups.old groups.new
            (map (with_only self.now.schema.now.numbers) (span_sums self.now.schema.now.columns self.now.run.now))) }
    {
        let run = self.run;
        let threads = run.ledger.threads(self.alloc)?;
        for row in &threads {
            let thread = Thread {
                pid: row.pid,
                tid: row.tid,
            };
            self.add_thread(groups, thread)?;
        }
        Ok(())
    }

    fn add_thread(&self, groups: &mut Groups, thread: Thread) -> Result<(), AllocError>
        ensures { OnOk result (Takes groups.old groups.new
            (map (with_only self.now.schema.now.numbers) (thread_sums self.now.schema.now.columns self.now.run.now thread))) }
    {
        let spans = timed_spans(self.alloc, self.run, thread)?;
        let places = self.parents_of(&spans)?;
        let outer = self.outer_of(&spans)?;
        // One key serves all spans, and is copied where it is new.
        let mut key = Key::of(Vec::new(self.alloc));
        for (place, timed) in spans.iter().enumerate() {
            let seen = SeenSpan {
                thread,
                span: CalledSpan::of(timed),
                parent: parent_at(&spans, &places, place),
            };
            self.put_key(&mut key, &seen)?;
            let sums = self.sums_of(timed, outer_at(&outer, place));
            groups.add_copy(&key, &sums)?;
        }
        Ok(())
    }

    // The places of the parents of the closed spans of a thread, if a column asks for them.
    fn parents_of(&self, spans: &[TimedSpan]) -> Result<Vec<Option<usize>>, AllocError>
        requires { AreSpans (spans_of spans.now) }
        ensures { IfOk result (λ places.
            KnowParents self.now.schema.now.columns (spans_of spans.now) places.items) }
    {
        let schema = self.schema;
        if ask_parents(&schema.columns) {
            return parents(self.alloc, spans);
        }
        Ok(Vec::new(self.alloc))
    }

    // Which of the closed spans of a thread are outer, if that number is asked for.
    fn outer_of(&self, spans: &[TimedSpan]) -> Result<Vec<bool>, AllocError>
        requires { AreSpans (spans_of spans.now) }
        ensures { IfOk result (λ found.
            KnowOuter (has_number self.now.schema.now.numbers Outer) (spans_of spans.now) found.items) }
    {
        if has_number(self.numbers(), Number::Outer) {
            return outer(self.alloc, spans);
        }
        Ok(Vec::new(self.alloc))
    }

    // The numbers of the table that a span has.
    fn sums_of(&self, timed: &TimedSpan, is_outer: bool) -> Sums
        ensures { result ≡ only self.now.schema.now.numbers
            (sums_of_span (length_of timed.now.span) timed.now.self_time is_outer) }
    {
        let span = timed.span;
        let length = length(span.start, span.until);
        Sums::of_span(length, timed.self_time, is_outer).only(self.numbers())
    }

    // The key of a span.
    fn key_of(&self, seen: &SeenSpan) -> Result<Key, AllocError>
        ensures { IfOk result (λ key. key
            ≡ map (value_at self.now.run.now seen.now.thread seen.now.span seen.now.parent)
            self.now.schema.now.columns) }
    {
        let schema = self.schema;
        let room = Vec::with_capacity(self.alloc, schema.columns.len())?;
        let mut key = Key::of(room);
        self.put_key(&mut key, seen)?;
        Ok(key)
    }

    // Makes a key that of a span. It takes no memory where the key had as many values.
    fn put_key(&self, key: &mut Key, seen: &SeenSpan) -> Result<(), AllocError>
        ensures { OnOk result (key.new
            ≡ map (value_at self.now.run.now seen.now.thread seen.now.span seen.now.parent)
            self.now.schema.now.columns) }
    {
        let schema = self.schema;
        key.clear();
        for column in &schema.columns {
            key.push(column.value(self.alloc, self.run, seen)?)?;
        }
        Ok(())
    }

    // The key of an asynchronous key.
    fn async_key_of(&self, key: &AsyncKey) -> Result<Key, AllocError>
        ensures { IfOk result (λ values.
            values ≡ map (async_value_at self.now.run.now key.now) self.now.schema.now.columns) }
    {
        let schema = self.schema;
        let columns = schema.columns.as_slice();
        let mut values = Vec::with_capacity(self.alloc, columns.len())?;
        for column in columns {
            values.push(column.async_value(self.alloc, self.run, key)?)?;
        }
        Ok(Key::of(values))
    }
}

fn ask_spans(columns: &[Column]) -> bool
    ensures { result ≡ list_any asks_spans columns.now }
{
    columns.iter().any(|column| column.asks_spans())
}

fn ask_each(numbers: &[Number]) -> bool
    ensures { result ≡ list_any asks_each numbers.now }
{
    numbers.iter().any(|number| number.asks_each())
}

// Whether the span at a place is outer, as far as that is known.
fn outer_at(outer: &[bool], place: usize) -> bool
    ensures { result ≡ outer_at outer.now place }
{
    match outer.get(place) {
        Some(outer) => *outer,
        None => false,
    }
}

fn ask_parents(columns: &[Column]) -> bool
    ensures { result ≡ list_any is_of_parent columns.now }
{
    columns.iter().any(|column| column.is_of_parent())
}

// The parent of the span at a place, where the places of parents are known and it has one.
fn parent_at<'a>(
    spans: &[TimedSpan<'a>],
    places: &[Option<usize>],
    place: usize,
) -> Option<CalledSpan<'a>>
    ensures { result ≡ option_map called
        (span_at (spans_of spans.now) (place_at places.now place)) }
{
    match places.get(place) {
        Some(Some(parent)) => match spans.get(*parent) {
            Some(timed) => Some(CalledSpan::of(timed)),
            None => None,
        },
        _ => None,
    }
}

fn timed_spans<'a>(
    alloc: Global,
    run: &LedgerRun<'a>,
    thread: Thread,
) -> Result<Vec<TimedSpan<'a>>, AllocError>
    ensures spans { IfOk result (λ spans. spans.items ≡ timed_spans run.now.journal thread) }
    ensures are { IfOk result (λ spans. AreSpans (spans_of spans.items)) }
{
    run.ledger.timed_spans(alloc, thread.pid, thread.tid)
}

// How many ticks there are from one time to another, if it is later.
fn length(start: i64, until: i64) -> u64
    ensures { result ≡ distance start until }
{
    if start < until {
        until.abs_diff(start)
    } else {
        0
    }
}
