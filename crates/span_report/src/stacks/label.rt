//! The label by which a span stands in stacks: what it has in columns of its own, as words.
ghost use Rattle.std.specs.Prelude.{◌≡◌, ◌↔◌, ◌++◌, is_some, map, string_bytes, IfOk, IsTrue, OnOk};
ghost use Rattle.span_report.specs.Stacks.{Labelled.then_word, Labels.{by_name, label_of, merged_word_of, word_in, word_of}};
ghost use Rattle.template_names.specs.Merged.{merged};

use span_event::{ArgValue, Text};
use span_ledger::NamedSpan;
use std::alloc::{AllocError, Global};
use template_names::merged;

/// A column in which a span has a value of its own, and not one of its process or thread.
#[derive(Debug, Drop, PartialEq, Eq)]
pub enum SpanColumn {
    Name,
    /// An argument, by its key.
    Argument(Text),
    /// The name with templates merged.
    MergedName,
    /// An argument, which if it is a text has its templates merged.
    MergedArgument(Text),
}

// Whether each label is just the name of its span.
pub(crate) fn are_names(columns: &[SpanColumn]) -> bool
    ensures { IsTrue result ↔ (columns.now ≡ by_name) }
{
    matches!(columns, [SpanColumn::Name])
}

// The label of each span.
pub(crate) fn labels_of(
    alloc: Global,
    spans: &[NamedSpan],
    columns: &[SpanColumn],
) -> Result<Vec<Text>, AllocError>
    ensures { IfOk result (λ labels. labels.items ≡ map (label_of columns.now) spans.now) }
{
    let mut labels = Vec::with_capacity(alloc, spans.len())?;
    let mut label = String::new(alloc);
    for span in spans {
        label.clear();
        put_label(&mut label, span, columns)?;
        labels.push(Text::of(alloc, label.as_str())?)?;
    }
    Ok(labels)
}

// Appends what the span has in the columns, with a space between each two.
fn put_label(out: &mut String, span: &NamedSpan, columns: &[SpanColumn]) -> Result<(), AllocError>
    ensures { OnOk result (string_bytes out.new
        ≡ string_bytes out.old ++ label_of columns.now span.now) }
{
    let mut separator = "";
    for column in columns {
        if put_word(out, separator, span, column)? {
            separator = " ";
        }
    }
    Ok(())
}

// Appends the separator and what the span has in the column, if it has anything there. Answers whether it has.
fn put_word(
    out: &mut String,
    separator: &str,
    span: &NamedSpan,
    column: &SpanColumn,
) -> Result<bool, AllocError>
    ensures word { OnOk result (string_bytes out.new ≡ string_bytes out.old
        ++ then_word separator.now (word_in span.now.name span.now.args column.now)) }
    ensures found { IfOk result (λ found.
        found ≡ is_some (word_in span.now.name span.now.args column.now)) }
{
    match column {
        SpanColumn::Name => {
            out.push_str(separator)?;
            out.push_str(span.name.as_str())?;
        }
        SpanColumn::Argument(key) => {
            let Some(value) = span.span.args.get(key.as_str()) else {
                return Ok(false);
            };
            out.push_str(separator)?;
            put_value(out, value)?;
        }
        SpanColumn::MergedName => {
            out.push_str(separator)?;
            put_merged(out, span.name.as_str())?;
        }
        SpanColumn::MergedArgument(key) => {
            let Some(value) = span.span.args.get(key.as_str()) else {
                return Ok(false);
            };
            out.push_str(separator)?;
            put_merged_value(out, value)?;
        }
    }
    Ok(true)
}

fn put_merged_value(out: &mut String, value: &ArgValue) -> Result<(), AllocError>
    ensures { OnOk result (string_bytes out.new ≡ string_bytes out.old ++ merged_word_of value.now) }
{
    match value {
        ArgValue::Words(text) => put_merged(out, text.as_str()),
        _ => put_value(out, value),
    }
}

// Appends a text with templates merged.
fn put_merged(out: &mut String, text: &str) -> Result<(), AllocError>
    ensures { OnOk result (string_bytes out.new ≡ string_bytes out.old ++ merged text.now) }
{
    match merged(*out.allocator(), text)? {
        Some(whole) => out.push_str(whole.as_str()),
        None => out.push_str(text),
    }
}

fn put_value(out: &mut String, value: &ArgValue) -> Result<(), AllocError>
    ensures { OnOk result (string_bytes out.new ≡ string_bytes out.old ++ word_of value.now) }
{
    match value {
        ArgValue::Nil => out.push_str("null"),
        ArgValue::Flag(true) => out.push_str("true"),
        ArgValue::Flag(false) => out.push_str("false"),
        ArgValue::Whole(number) => {
            let number = *number;
            write!(out, "{number}")
        }
        ArgValue::Words(text) => out.push_str(text.as_str()),
        ArgValue::Other => out.push_str("..."),
    }
}
