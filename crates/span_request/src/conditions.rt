//! The conditions of a table, as the command line names them.
ghost use Rattle.std.specs.{List.{list_all, list_any}, Prelude.{◌≡◌, ◌++◌, false, IfOk, MatchOption, MatchResult}};
ghost use Rattle.span_request.specs.{Condition as TheCondition, goes_with, Columns.is_file, Conditions.{AreConditions, AreNoConditions, IsCondition, IsNoCondition, IsParted, IsUnmarked, has_operator, mark_of}};

use crate::columns::{column_named, is_file};
use span_event::Text;
use span_narrowing::Condition;
use span_table::Of;
use std::alloc::{AllocError, Global};

// Said of a word without an operator.
const OPERATOR_RULE: &str =
    "the conditions of '--where' are COLUMN=TEXT, COLUMN!=TEXT, COLUMN~TEXT, COLUMN!~TEXT";

// Said of a text that is to be contained, and is in every text.
const TEXT_RULE: &str =
    "the TEXT of '--where COLUMN~TEXT' and '--where COLUMN!~TEXT' may not be empty";

const COLUMN_RULE: &str =
    "the columns of '--where' are pid, tid, process, thread, name, args.KEY, parent.name, parent.args.KEY, and with '--apart', '--repeats' or '--add' file";

const ASYNC_COLUMN_RULE: &str =
    "the columns of '--where' with '--of async' are cat, scope, id, name, and with '--apart' or '--repeats' file";

// Said of columns that asynchronous spans alone have.
const OTHERS_RULE: &str =
    "the columns cat, scope, id of '--where' go with '--of async' alone; others are pid, tid, process, thread, name, args.KEY, parent.name, parent.args.KEY";

const FILE_RULE: &str =
    "the column 'file' of '--where' goes with '--apart', '--repeats' and '--add' alone; others are pid, tid, process, thread, name, args.KEY, parent.name, parent.args.KEY";

const ASYNC_FILE_RULE: &str =
    "the column 'file' of '--where' goes with '--apart', '--repeats' and '--add' alone; others with '--of async' are cat, scope, id, name";

// Said of a name that is of no column.
fn column_rule_of(of: Of) -> &'static str {
    match of {
        Of::Spans => COLUMN_RULE,
        Of::Async => ASYNC_COLUMN_RULE,
    }
}

/// Said of columns that what is summed doesn't have.
pub(crate) fn conditions_others_rule_of(of: Of) -> &'static str {
    match of {
        Of::Spans => OTHERS_RULE,
        Of::Async => ASYNC_COLUMN_RULE,
    }
}

/// Said of the column `file` where a run may have several.
pub(crate) fn conditions_file_rule_of(of: Of) -> &'static str {
    match of {
        Of::Spans => FILE_RULE,
        Of::Async => ASYNC_FILE_RULE,
    }
}

/// The conditions that these words are, or what is said of the first that is none. The text goes by what is summed.
pub(crate) fn conditions_of(
    alloc: Global,
    of: Of,
    words: &[Text],
) -> Result<Result<Vec<Condition>, &'static str>, AllocError>
    ensures { IfOk result (λ found. MatchResult found
        (λ conditions. AreConditions words.now conditions.items) (λ rule. AreNoConditions words.now)) }
{
    let mut conditions = Vec::new(alloc);
    for word in words {
        match condition_of(alloc, of, word.as_str())? {
            Ok(condition) => conditions.push(condition)?,
            Err(rule) => return Ok(Err(rule)),
        }
    }
    Ok(Ok(conditions))
}

fn condition_of(
    alloc: Global,
    of: Of,
    word: &str,
) -> Result<Result<Condition, &'static str>, AllocError>
    ensures { IfOk result (λ found. MatchResult found
        (IsCondition word.now) (λ rule. IsNoCondition word.now)) }
{
    let Some((front, contains, text)) = parts_of(word) else {
        return Ok(Err(OPERATOR_RULE));
    };
    if contains & text.is_empty() {
        return Ok(Err(TEXT_RULE));
    }
    let (name, negated) = unmarked(front);
    let Some(column) = column_named(alloc, name)? else {
        return Ok(Err(column_rule_of(of)));
    };
    let text = Text::of(alloc, text)?;
    Ok(Ok(Condition {
        column,
        negated,
        contains,
        text,
    }))
}

// What stands before the first operator, whether it asks for a text to be contained, and what stands behind it.
fn parts_of(word: &str) -> Option<(&str, bool, &str)>
    ensures { MatchOption result (has_operator word.now ≡ false)
        (λ parts. IsParted word.now parts.0.now parts.1 parts.2.now) }
{
    let Some((front, text)) = word.split_once('=') else {
        let (front, text) = word.split_once('~')?;
        return Some((front, true, text));
    };
    let Some((other, behind)) = word.split_once('~') else {
        return Some((front, false, text));
    };
    if other.len() < front.len() {
        Some((other, true, behind))
    } else {
        Some((front, false, text))
    }
}

// What is before a `!` at the end, and whether there is one.
fn unmarked(front: &str) -> (&str, bool)
    ensures parts { front.now ≡ result.0.now ++ mark_of result.1 }
    ensures whole { result.1 ≡ false → IsUnmarked result.0.now }
{
    match front.strip_suffix('!') {
        Some(name) => (name, true),
        None => (front, false),
    }
}

/// Whether what is summed has the columns of all conditions.
pub(crate) fn conditions_go_with(of: Of, conditions: &[Condition]) -> bool
    ensures { result ≡ list_all (λ (c : TheCondition). goes_with of c.column) conditions.now }
{
    conditions
        .iter()
        .all(|condition| condition.column.goes_with(of))
}

/// Whether one is on the name of the only file.
pub(crate) fn conditions_have_file(conditions: &[Condition]) -> bool
    ensures { result ≡ list_any (λ (c : TheCondition). is_file c.column) conditions.now }
{
    conditions
        .iter()
        .any(|condition| is_file(&condition.column))
}
