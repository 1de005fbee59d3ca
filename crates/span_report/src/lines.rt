//! The lines of a report: one for each row, appended to a text.
ghost use Rattle.std.specs.Prelude.{◌≡◌, ◌++◌, ℕ, List, string_bytes, OnOk, IfOk};
ghost use Rattle.span_report.specs.Lines.{first_line, unit_line, process_line, thread_line, span_line, or_dash, json_text_of, reach_text, instant_line, id_text, counter_line, samples_text, async_line, flow_line};

use serde_json::Value;
use span_event::{BoxedId, Reach, Text, Unit};
use span_journal::{ProcessRow, SpanRow, ThreadRow};
use span_keyed_tracks::{AsyncRow, FlowRow, InstantRow, SeriesRow, SeriesTotals};
use std::alloc::{AllocError, Global};

/// What a report prints as lines.
pub(crate) trait Printed {
    ghost lines: { Self → List ℕ };

    /// Appends its lines.
    fn put(&self, alloc: Global, out: &mut String) -> Result<(), AllocError>
        ensures { OnOk result (string_bytes out.new ≡ string_bytes out.old ++ lines self.now) };
}

/// The text as JSON text, which stands for it in a report and in a fault's line.
#[tactic(auto, unfolding(crate::specs::Lines::json_text_of))]
pub fn json_text(alloc: Global, text: &Text) -> Result<String, AllocError>
    ensures { IfOk result (λ s. string_bytes s ≡ json_text_of text.now) }
{
    Value::try_from_str(alloc, text.as_str())?.to_string(alloc)
}

/// The name as JSON text, or `-` where there is none.
pub fn shown_name(alloc: Global, name: &Option<Text>) -> Result<String, AllocError>
    ensures { IfOk result (λ s. string_bytes s ≡ or_dash json_text_of name.now) }
{
    match name {
        None => String::from_str(alloc, "-"),
        Some(name) => json_text(alloc, name),
    }
}

/// The first line of each text that the program prints.
#[tactic(auto, unfolding(crate::specs::Lines::first_line))]
pub fn first_line(alloc: Global) -> Result<String, AllocError>
    ensures { IfOk result (λ s. string_bytes s ≡ first_line) }
{
    String::from_str(alloc, "tracebook 1\n")
}

/// Appends the line that says the unit of all times and lengths, where it isn't microseconds.
#[tactic(auto, unfolding(crate::specs::Lines::unit_line))]
pub fn put_unit(out: &mut String, unit: Unit) -> Result<(), AllocError>
    ensures { OnOk result (string_bytes out.new ≡ string_bytes out.old ++ unit_line unit) }
{
    match unit {
        Unit::Microseconds => Ok(()),
        Unit::Nanoseconds => out.push_str("unit nanoseconds\n"),
    }
}

impl Printed for ProcessRow {
    ghost lines = { process_line };

    #[tactic(auto, unfolding(crate::specs::Lines::process_line))]
    fn put(&self, alloc: Global, out: &mut String) -> Result<(), AllocError> {
        let name = shown_name(alloc, &self.name)?;
        let pid = self.pid;
        writeln!(out, "process {pid} {name}")
    }
}

impl Printed for ThreadRow {
    ghost lines = { thread_line };

    #[tactic(auto, unfolding(crate::specs::Lines::thread_line))]
    fn put(&self, alloc: Global, out: &mut String) -> Result<(), AllocError> {
        let name = shown_name(alloc, &self.name)?;
        let (pid, tid, unclosed, busy) = (self.pid, self.tid, self.unclosed, self.busy);
        writeln!(out, "thread {pid} {tid} {name} open {unclosed} busy {busy}")
    }
}

impl Printed for SpanRow {
    ghost lines = { span_line };

    #[tactic(auto, using(crate::proofs::Padding::padded_integral_right, std::proofs::Common::append_assoc), unfolding(crate::specs::Lines::span_line))]
    fn put(&self, alloc: Global, out: &mut String) -> Result<(), AllocError> {
        let name = json_text(alloc, &self.name)?;
        let (count, total, self_time) = (self.count, self.total, self.self_time);
        writeln!(out, "span {count:>8} {total:>16} {self_time:>16} {name}")
    }
}

fn letter_of(reach: Reach) -> &'static str
    ensures { result.now ≡ reach_text reach }
{
    match reach {
        Reach::Global => "g",
        Reach::Process => "p",
        Reach::Thread => "t",
    }
}

impl Printed for InstantRow {
    ghost lines = { instant_line };

    #[tactic(auto, using(crate::proofs::Padding::padded_integral_right, std::proofs::Common::append_assoc), unfolding(crate::specs::Lines::instant_line))]
    fn put(&self, alloc: Global, out: &mut String) -> Result<(), AllocError> {
        let name = json_text(alloc, &self.name)?;
        let (reach, count) = (letter_of(self.reach), self.count);
        writeln!(out, "instant {reach} {count:>8} {name}")
    }
}

#[tactic(auto, unfolding(crate::specs::Lines::id_text))]
fn shown_id(alloc: Global, id: &BoxedId) -> Result<String, AllocError>
    ensures { IfOk result (λ s. string_bytes s ≡ id_text id.now) }
{
    let key = id.as_key();
    let id = json_text(alloc, &key.id)?;
    match key.home {
        None => Ok(id),
        Some(home) => format!(in alloc; "{home}:{id}"),
    }
}

fn shown_any_id(alloc: Global, id: &Option<BoxedId>) -> Result<String, AllocError>
    ensures { IfOk result (λ s. string_bytes s ≡ or_dash id_text id.now) }
{
    match id {
        None => String::from_str(alloc, "-"),
        Some(id) => shown_id(alloc, id),
    }
}

impl Printed for SeriesRow {
    ghost lines = { counter_line };

    #[tactic(auto, unfolding(crate::specs::Lines::counter_line))]
    fn put(&self, alloc: Global, out: &mut String) -> Result<(), AllocError> {
        let name = json_text(alloc, &self.key.name)?;
        let id = shown_any_id(alloc, &self.key.id)?;
        let series = json_text(alloc, &self.key.series)?;
        let samples = shown_samples(alloc, self.totals)?;
        let pid = self.key.pid;
        writeln!(out, "counter {pid} {name} {id} {series} {samples}")
    }
}

#[tactic(auto, unfolding(crate::specs::Lines::samples_text))]
fn shown_samples(alloc: Global, totals: SeriesTotals) -> Result<String, AllocError>
    ensures { IfOk result (λ s. string_bytes s ≡ samples_text totals) }
{
    let SeriesTotals {
        samples,
        least,
        greatest,
        last,
    } = totals;
    format!(in alloc; "samples {samples} least {least} greatest {greatest} last {last}")
}

impl Printed for AsyncRow {
    ghost lines = { async_line };

    #[tactic(auto, unfolding(crate::specs::Lines::async_line))]
    fn put(&self, alloc: Global, out: &mut String) -> Result<(), AllocError> {
        let cat = json_text(alloc, &self.key.cat)?;
        let scope = json_text(alloc, &self.key.scope)?;
        let id = shown_id(alloc, &self.key.id)?;
        let name = json_text(alloc, &self.key.name)?;
        let (closed, total) = (self.totals.closed, self.totals.total);
        let (unclosed, points) = (self.totals.unclosed, self.totals.points);
        writeln!(
            out,
            "async {cat} {scope} {id} {name} closed {closed} total {total} open {unclosed} points {points}"
        )
    }
}

impl Printed for FlowRow {
    ghost lines = { flow_line };

    #[tactic(auto, unfolding(crate::specs::Lines::flow_line))]
    fn put(&self, alloc: Global, out: &mut String) -> Result<(), AllocError> {
        let cat = json_text(alloc, &self.key.cat)?;
        let name = json_text(alloc, &self.key.name)?;
        let id = shown_id(alloc, &self.key.id)?;
        let (ended, total, unclosed) = (self.totals.ended, self.totals.total, self.totals.unclosed);
        writeln!(
            out,
            "flow {cat} {name} {id} ended {ended} total {total} open {unclosed}"
        )
    }
}
