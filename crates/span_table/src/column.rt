//! The columns by which spans are summed.
ghost use Rattle.std.specs.Prelude.{◌≡◌, ◌≢◌, ◌<◌, [], ◌++◌, codes, length, option_and_then, option_copied, option_map, true, IfOk, IfSome, Some};
ghost use Rattle.span_table.specs.{Words, Bytes, value_of, with_home, Collected.asks_spans, Columns.{Called, async_value_at, column_name, goes_with, is_column, is_of_all, is_of_async, is_of_parent, value_at}, declared.column.Column.{Column, TheVariants.{Argument, ParentArgument}}};

use crate::of::Of;
use crate::run::LedgerRun;
use crate::seen::{CalledSpan, SeenSpan};
use span_event::{ArgValue, IdKey, Text};
use span_keyed_tracks::AsyncKey;
use std::alloc::{AllocError, Global};

/// A column of a table. A process or a thread may have no name, a run not just one file with a name, and a span not the argument or no
/// parent. Of the columns of spans an asynchronous one has a name and a file.
#[derive(Debug, Drop, PartialEq, Eq)]
pub enum Column {
    Pid,
    Tid,
    Process,
    Thread,
    Name,
    /// The name of the only file of the run.
    File,
    /// The category of an asynchronous span.
    Cat,
    /// The scope of an asynchronous span.
    Scope,
    /// The id of an asynchronous span: of one that belongs to a process the process, a colon and the id.
    Id,
    /// An argument of the span, by its key: `args.KEY`.
    Argument(Text),
    /// The name of the span's parent: of the closed spans of its thread that hold it, the one that ranks above all others.
    ParentName,
    /// An argument of the span's parent, by its key: `parent.args.KEY`.
    ParentArgument(Text),
}

impl Column {
    /// The column of this name, as `name` gives it: `pid`, `tid`, `process`, `thread`, `name`, `file`, `cat`, `scope`, `id`,
    /// `parent.name`, or `args.KEY` or `parent.args.KEY` with whatever KEY that is not empty. None where no column has the name.
    pub fn named(alloc: Global, name: &str) -> Result<Option<Column>, AllocError>
        ensures name { IfOk result (λ found.
            IfSome found (λ column. column_name column ≡ name.now)) }
        ensures found { IfOk result (λ found. (column : Column) → is_column column ≡ true
            → column_name column ≡ name.now → found ≡ Some column) }
        ensures key { IfOk result (λ found. found ≢ Some (Argument [])) }
        ensures parent_key { IfOk result (λ found. found ≢ Some (ParentArgument [])) }
    {
        match name {
            "pid" => Ok(Some(Column::Pid)),
            "tid" => Ok(Some(Column::Tid)),
            "process" => Ok(Some(Column::Process)),
            "thread" => Ok(Some(Column::Thread)),
            "name" => Ok(Some(Column::Name)),
            "file" => Ok(Some(Column::File)),
            "cat" => Ok(Some(Column::Cat)),
            "scope" => Ok(Some(Column::Scope)),
            "id" => Ok(Some(Column::Id)),
            "parent.name" => Ok(Some(Column::ParentName)),
            _ => argument_named(alloc, name),
        }
    }

    /// What the column is called.
    pub fn name(&self, alloc: Global) -> Result<Text, AllocError>
        ensures { IfOk result (λ name. name ≡ column_name self.now) }
    {
        match self {
            Column::Pid => Text::of(alloc, "pid"),
            Column::Tid => Text::of(alloc, "tid"),
            Column::Process => Text::of(alloc, "process"),
            Column::Thread => Text::of(alloc, "thread"),
            Column::Name => Text::of(alloc, "name"),
            Column::File => Text::of(alloc, "file"),
            Column::Cat => Text::of(alloc, "cat"),
            Column::Scope => Text::of(alloc, "scope"),
            Column::Id => Text::of(alloc, "id"),
            Column::ParentName => Text::of(alloc, "parent.name"),
            Column::Argument(key) => {
                let key = key.as_str();
                let name = format!(in alloc; "args.{key}")?;
                Text::of(alloc, name.as_str())
            }
            Column::ParentArgument(key) => {
                let key = key.as_str();
                let name = format!(in alloc; "parent.args.{key}")?;
                Text::of(alloc, name.as_str())
            }
        }
    }

    pub fn try_clone(&self, alloc: Global) -> Result<Column, AllocError>
        ensures { IfOk result (λ copy. copy ≡ self.now) }
    {
        Ok(match self {
            Column::Pid => Column::Pid,
            Column::Tid => Column::Tid,
            Column::Process => Column::Process,
            Column::Thread => Column::Thread,
            Column::Name => Column::Name,
            Column::File => Column::File,
            Column::Cat => Column::Cat,
            Column::Scope => Column::Scope,
            Column::Id => Column::Id,
            Column::Argument(key) => Column::Argument(key.try_clone(alloc)?),
            Column::ParentName => Column::ParentName,
            Column::ParentArgument(key) => Column::ParentArgument(key.try_clone(alloc)?),
        })
    }

    /// Whether it asks a span for more than its name.
    pub(crate) fn asks_spans(&self) -> bool
        ensures { result ≡ asks_spans self.now }
    {
        matches!(self, Column::Argument(_)) || self.is_of_parent()
    }

    pub(crate) fn is_of_parent(&self) -> bool
        ensures { result ≡ is_of_parent self.now }
    {
        matches!(self, Column::ParentName | Column::ParentArgument(_))
    }

    /// Whether what a table sums has the column.
    pub fn goes_with(&self, of: Of) -> bool
        ensures { result ≡ goes_with of self.now }
    {
        match of {
            Of::Spans => !self.is_of_async(),
            Of::Async => self.is_of_async() || self.is_of_all(),
        }
    }

    // Whether only asynchronous spans have the column.
    fn is_of_async(&self) -> bool
        ensures { result ≡ is_of_async self.now }
    {
        matches!(self, Column::Cat | Column::Scope | Column::Id)
    }

    // Whether whatever a table sums has the column.
    fn is_of_all(&self) -> bool
        ensures { result ≡ is_of_all self.now }
    {
        matches!(self, Column::Name | Column::File)
    }

    /// The value of the column at a closed span. Texts are shared.
    pub(crate) fn value(
        &self,
        alloc: Global,
        run: &LedgerRun,
        seen: &SeenSpan,
    ) -> Result<Option<ArgValue>, AllocError>
        ensures { IfOk result (λ value. value
            ≡ value_at run.now seen.now.thread seen.now.span seen.now.parent self.now) }
    {
        let thread = seen.thread;
        match self {
            Column::Pid => Ok(Some(ArgValue::Whole(thread.pid))),
            Column::Tid => Ok(Some(ArgValue::Whole(thread.tid))),
            Column::Process => words_of(alloc, run.ledger.process_name(thread.pid)),
            Column::Thread => words_of(alloc, run.ledger.thread_name(thread.pid, thread.tid)),
            Column::Name => words_of(alloc, Some(seen.span.name)),
            Column::File => words_of(alloc, run.file),
            Column::Argument(key) => copy_of(alloc, seen.span.args.get(key.as_str())),
            Column::ParentName => name_of(alloc, seen.parent.as_ref()),
            Column::ParentArgument(key) => argument_of(alloc, seen.parent.as_ref(), key),
            Column::Cat | Column::Scope | Column::Id => Ok(None),
        }
    }

    /// The value of the column at an asynchronous key of a run. Texts are shared.
    pub(crate) fn async_value(
        &self,
        alloc: Global,
        run: &LedgerRun,
        key: &AsyncKey,
    ) -> Result<Option<ArgValue>, AllocError>
        ensures { IfOk result (λ value. value ≡ async_value_at run.now key.now self.now) }
    {
        match self {
            Column::Cat => words_of(alloc, Some(&key.cat)),
            Column::Scope => words_of(alloc, Some(&key.scope)),
            Column::Id => Ok(Some(ArgValue::Words(id_text(alloc, key.id.as_key())?))),
            Column::Name => words_of(alloc, Some(&key.name)),
            Column::File => words_of(alloc, run.file),
            Column::Pid | Column::Tid | Column::Process | Column::Thread => Ok(None),
            Column::Argument(_) | Column::ParentName | Column::ParentArgument(_) => Ok(None),
        }
    }
}

// The name of a parent, if there is one.
fn name_of(alloc: Global, parent: Option<&CalledSpan>) -> Result<Option<ArgValue>, AllocError>
    ensures { IfOk result (λ value. value
        ≡ option_map (λ (p : Called). Words p.name) (option_copied parent.entry)) }
{
    match parent {
        Some(parent) => words_of(alloc, Some(parent.name)),
        None => Ok(None),
    }
}

// The argument of a parent, if there is one that has it.
fn argument_of(
    alloc: Global,
    parent: Option<&CalledSpan>,
    key: &Text,
) -> Result<Option<ArgValue>, AllocError>
    ensures { IfOk result (λ value. value
        ≡ option_and_then (λ (p : Called). value_of key.now p.args) (option_copied parent.entry)) }
{
    match parent {
        Some(parent) => copy_of(alloc, parent.args.get(key.as_str())),
        None => Ok(None),
    }
}

// An id, with the process before it that it belongs to.
fn id_text(alloc: Global, key: &IdKey) -> Result<Text, AllocError>
    ensures { IfOk result (λ text. text ≡ with_home key.now.home key.now.id) }
{
    let Some(home) = key.home else {
        return key.id.try_clone(alloc);
    };
    let id = key.id.as_str();
    let text = format!(in alloc; "{home}:{id}")?;
    Text::of(alloc, text.as_str())
}

fn argument_named(alloc: Global, name: &str) -> Result<Option<Column>, AllocError>
    ensures name { IfOk result (λ found. IfSome found (λ column. column_name column ≡ name.now)) }
    ensures found { IfOk result (λ found. (key : Bytes) → 0 < length key
        → codes "args." ++ key ≡ name.now → found ≡ Some (Argument key)) }
    ensures found_parent { IfOk result (λ found. (key : Bytes) → 0 < length key
        → codes "parent.args." ++ key ≡ name.now → found ≡ Some (ParentArgument key)) }
    ensures key { IfOk result (λ found. found ≢ Some (Argument [])) }
    ensures parent_key { IfOk result (λ found. found ≢ Some (ParentArgument [])) }
{
    match name.strip_prefix("args.") {
        Some(key) if !key.is_empty() => Ok(Some(Column::Argument(Text::of(alloc, key)?))),
        _ => parent_argument_named(alloc, name),
    }
}

fn parent_argument_named(alloc: Global, name: &str) -> Result<Option<Column>, AllocError>
    ensures name { IfOk result (λ found. IfSome found (λ column. column_name column ≡ name.now)) }
    ensures found { IfOk result (λ found. (key : Bytes) → 0 < length key
        → codes "parent.args." ++ key ≡ name.now → found ≡ Some (ParentArgument key)) }
    ensures other { IfOk result (λ found. (key : Bytes) → found ≢ Some (Argument key)) }
    ensures key { IfOk result (λ found. found ≢ Some (ParentArgument [])) }
{
    let Some(key) = name.strip_prefix("parent.args.") else {
        return Ok(None);
    };
    if key.is_empty() {
        return Ok(None);
    }
    Ok(Some(Column::ParentArgument(Text::of(alloc, key)?)))
}

/// A text as a value, if there is one. Texts are shared.
pub fn words_of(alloc: Global, name: Option<&Text>) -> Result<Option<ArgValue>, AllocError>
    ensures { IfOk result (λ value. value ≡ option_map Words (option_copied name.entry)) }
{
    match name {
        Some(name) => Ok(Some(ArgValue::Words(name.try_clone(alloc)?))),
        None => Ok(None),
    }
}

/// The same value, if there is one.
pub fn copy_of(alloc: Global, value: Option<&ArgValue>) -> Result<Option<ArgValue>, AllocError>
    ensures { IfOk result (λ copy. copy ≡ option_copied value.entry) }
{
    match value {
        Some(value) => Ok(Some(value.try_clone(alloc)?)),
        None => Ok(None),
    }
}

/// Copies of the columns.
pub fn copies_of(alloc: Global, columns: &[Column]) -> Result<Vec<Column>, AllocError>
    ensures { IfOk result (λ copies. copies.items ≡ columns.now) }
{
    let mut copies = Vec::with_capacity(alloc, columns.len())?;
    for column in columns {
        copies.push(column.try_clone(alloc)?)?;
    }
    Ok(copies)
}
