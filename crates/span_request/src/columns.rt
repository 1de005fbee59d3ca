//! The columns of a table, as the command line names them.
ghost use Rattle.std.specs.{List.{list_all, list_any}, Prelude.{◌≡◌, IfOk, MatchOption, map}};
ghost use Rattle.span_request.specs.{goes_with, Columns.{alike, AreAsked, AreEach, AreNamed, IsNamed, NamesNone, has_comma, is_file, is_of_span, usual_columns}, Lists.{Finds, names_in}, Tasks.{asked_labels, label_of, labels_of, merged_label}};

use crate::lists::{has_twice, names_in};
use crate::texts::most_rows;
use span_options::Options;
use span_report::stacks::SpanColumn;
use span_table::{Column, Of};
use std::alloc::{AllocError, Global};

const MOST: usize = 8;

const RULE: &str =
    "the columns of '--group-by' are pid, tid, process, thread, name, args.KEY, parent.name, parent.args.KEY, and with '--apart', '--repeats' or '--add' file: 1 to 8 of them, with commas between, none twice";

const ASYNC_RULE: &str =
    "the columns of '--group-by' with '--of async' are cat, scope, id, name, and with '--apart' or '--repeats' file: at least one of them, with commas between, none twice";

// Said of columns that asynchronous spans alone have.
const OTHERS_RULE: &str =
    "the columns cat, scope, id go with '--of async' alone; others are pid, tid, process, thread, name, args.KEY, parent.name, parent.args.KEY";

const FILE_RULE: &str =
    "the column 'file' goes with '--apart', '--repeats' and '--add' alone; others are pid, tid, process, thread, name, args.KEY, parent.name, parent.args.KEY";

const ASYNC_FILE_RULE: &str =
    "the column 'file' goes with '--apart', '--repeats' and '--add' alone; others with '--of async' are cat, scope, id, name";

/// Said of other columns of folded stacks.
pub(crate) const LABEL_RULE: &str =
    "the columns of '--group-by' with '--folded' are name, args.KEY: 1 to 8 of them, with commas between, none twice";

/// Said of a list that names none, more than may be, one twice, or one that is no column.
pub(crate) fn rule_of(of: Of) -> &'static str {
    match of {
        Of::Spans => RULE,
        Of::Async => ASYNC_RULE,
    }
}

/// Said of columns that what is summed doesn't have.
pub(crate) fn others_rule_of(of: Of) -> &'static str {
    match of {
        Of::Spans => OTHERS_RULE,
        Of::Async => ASYNC_RULE,
    }
}

/// Said of the column `file` where a run may have several.
pub(crate) fn file_rule_of(of: Of) -> &'static str {
    match of {
        Of::Spans => FILE_RULE,
        Of::Async => ASYNC_FILE_RULE,
    }
}

/// The columns that the options ask for, or those of the text where they name none. None where what they name are no columns.
pub(crate) fn columns_asked(
    alloc: Global,
    options: &Options,
    of: Of,
) -> Result<Option<Vec<Column>>, AllocError>
    ensures { IfOk result (Finds (AreAsked of options.now)) }
{
    match &options.group_by {
        Some(names) => columns_of(alloc, names.as_str()),
        None => Ok(Some(usual_columns(alloc, of, options)?)),
    }
}

fn usual_columns(alloc: Global, of: Of, options: &Options) -> Result<Vec<Column>, AllocError>
    ensures { IfOk result (λ columns. columns.items ≡ usual_columns of options.now) }
{
    if options.add {
        return Ok(Vec::new(alloc));
    }
    if let Of::Async = of {
        return Ok(vec![in alloc; Column::Cat, Column::Name]?);
    }
    if !options.base.is_empty() {
        return alike(alloc);
    }
    if most_rows(options).is_some() {
        return Ok(vec![in alloc; Column::Pid, Column::Tid, Column::Thread, Column::Name]?);
    }
    if options.folded {
        return Ok(vec![in alloc; Column::Name]?);
    }
    if options.page {
        return Ok(vec![in alloc;
            Column::Pid,
            Column::Process,
            Column::Tid,
            Column::Thread,
            Column::Name,
        ]?);
    }
    alike(alloc)
}

fn alike(alloc: Global) -> Result<Vec<Column>, AllocError>
    ensures { IfOk result (λ columns. columns.items ≡ alike) }
{
    Ok(vec![in alloc; Column::Process, Column::Thread, Column::Name]?)
}

// The columns with these names, which stand between commas.
fn columns_of(alloc: Global, text: &str) -> Result<Option<Vec<Column>>, AllocError>
    ensures { IfOk result (Finds (AreNamed (names_in text.now))) }
{
    let names = names_in(alloc, text)?;
    if names.len() > MOST || has_twice(&names) {
        return Ok(None);
    }
    columns_named(alloc, &names)
}

// Each of these is a column.
fn columns_named(alloc: Global, names: &[&str]) -> Result<Option<Vec<Column>>, AllocError>
    ensures { IfOk result (Finds (AreEach (map (λ name. name.now) names.now))) }
{
    let mut columns = Vec::new(alloc);
    for name in names {
        let Some(column) = column_named(alloc, name)? else {
            return Ok(None);
        };
        columns.push(column)?;
    }
    Ok(Some(columns))
}

/// The column of this name. None where no column of a table may have it.
pub(crate) fn column_named(alloc: Global, name: &str) -> Result<Option<Column>, AllocError>
    ensures { IfOk result (λ found. MatchOption found (NamesNone name.now) (IsNamed name.now)) }
{
    if has_comma(name) {
        return Ok(None);
    }
    Column::named(alloc, name)
}

fn has_comma(text: &str) -> bool
    ensures { result ≡ has_comma text.now }
{
    text.as_bytes().iter().any(|byte| *byte == b',')
}

/// Whether what is summed has all of the columns.
pub(crate) fn go_with(of: Of, columns: &[Column]) -> bool
    ensures { result ≡ list_all (goes_with of) columns.now }
{
    columns.iter().all(|column| column.goes_with(of))
}

/// Whether the name of the only file is a column.
pub(crate) fn have_file(columns: &[Column]) -> bool
    ensures { result ≡ list_any is_file columns.now }
{
    columns.iter().any(|column| is_file(column))
}

pub(crate) fn is_file(column: &Column) -> bool
    ensures { result ≡ is_file column.now }
{
    matches!(column, Column::File)
}

/// Whether a span has values of its own in each of the columns, and not those of its process, thread or file.
pub(crate) fn are_of_spans(columns: &[Column]) -> bool
    ensures { result ≡ list_all is_of_span columns.now }
{
    columns.iter().all(|column| is_of_span(column))
}

fn is_of_span(column: &Column) -> bool
    ensures { result ≡ is_of_span column.now }
{
    matches!(column, Column::Name | Column::Argument(_))
}

// The columns in which a span has a value of its own, by which frames are labelled; where there is none, its name.
fn labels_of(alloc: Global, columns: &[Column]) -> Result<Vec<SpanColumn>, AllocError>
    ensures { IfOk result (λ labels. labels.items ≡ labels_of columns.now) }
{
    let mut labels = Vec::new(alloc);
    for column in columns {
        if let Some(label) = label_of(alloc, column)? {
            labels.push(label)?;
        }
    }
    if labels.is_empty() {
        labels.push(SpanColumn::Name)?;
    }
    Ok(labels)
}

/// The labels that the options ask for by these columns, with templates merged or not.
pub(crate) fn asked_labels(
    alloc: Global,
    options: &Options,
    columns: &[Column],
) -> Result<Vec<SpanColumn>, AllocError>
    ensures { IfOk result (λ labels. labels.items ≡ asked_labels options.now columns.now) }
{
    let labels = labels_of(alloc, columns)?;
    if !options.merge_templates {
        return Ok(labels);
    }
    let mut merged = Vec::with_capacity(alloc, labels.len())?;
    for label in &labels {
        merged.push(merged_label(alloc, label)?)?;
    }
    Ok(merged)
}

fn merged_label(alloc: Global, label: &SpanColumn) -> Result<SpanColumn, AllocError>
    ensures { IfOk result (λ merged. merged ≡ merged_label label.now) }
{
    Ok(match label {
        SpanColumn::Name | SpanColumn::MergedName => SpanColumn::MergedName,
        SpanColumn::Argument(key) | SpanColumn::MergedArgument(key) => {
            SpanColumn::MergedArgument(key.try_clone(alloc)?)
        }
    })
}

fn label_of(alloc: Global, column: &Column) -> Result<Option<SpanColumn>, AllocError>
    ensures { IfOk result (λ label. label ≡ label_of column.now) }
{
    Ok(match column {
        Column::Name => Some(SpanColumn::Name),
        Column::Argument(key) => Some(SpanColumn::Argument(key.try_clone(alloc)?)),
        _ => None,
    })
}
