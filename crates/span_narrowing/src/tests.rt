//! Tables by hand.
use crate::{Condition, Narrowing, narrowed, summed_by};
use span_event::{ArgValue, Text};
use span_names::HashKeys;
use span_table::{
    Column, EntryCounts, Key, Of, OrderedTable, Row, Schema, SumFault, Sums, Table, TableCounts,
    TableSum,
};
use std::alloc::{AllocError, Global};
use std::test::Fail;

const COUNTS: TableCounts = TableCounts {
    runs: 2,
    files: 3,
    unread: 1,
    entries: EntryCounts {
        accepted: 9,
        refused: 8,
        skipped: 7,
        queries: 6,
        seals: 5,
    },
};

fn words(alloc: Global, text: &str) -> Result<Option<ArgValue>, AllocError> {
    Ok(Some(ArgValue::Words(Text::of(alloc, text)?)))
}

// So many spans with a name and this value, whose lengths are all 1.
fn row(alloc: Global, name: &str, value: Option<ArgValue>, count: u128) -> Result<Row, AllocError> {
    let key = Key::of(vec![in alloc; words(alloc, name)?, value]?);
    let sums = Sums {
        count,
        total: count,
        self_time: count,
        ..Sums::of_none()
    };
    Ok(Row { key, sums })
}

fn table(alloc: Global, columns: &[Column], rows: Vec<Row>) -> Result<Table, SumFault> {
    let schema = Schema::usual(alloc, Of::Spans, columns)?;
    let mut sum = TableSum::new(alloc, HashKeys::fixed(), schema);
    sum.add_counts(&COUNTS)?;
    for row in &rows {
        sum.add_row(row)?;
    }
    Ok(sum.into_table()?)
}

// A value of each kind, and what it is called.
fn kinds(alloc: Global) -> Result<Vec<Row>, AllocError> {
    Ok(vec![in alloc;
        row(alloc, "missing", None, 1)?,
        row(alloc, "nil", Some(ArgValue::Nil), 1)?,
        row(alloc, "no", Some(ArgValue::Flag(false)), 1)?,
        row(alloc, "yes", Some(ArgValue::Flag(true)), 1)?,
        row(alloc, "whole", Some(ArgValue::Whole(-70)), 1)?,
        row(alloc, "words", words(alloc, "l=<7>")?, 1)?,
        row(alloc, "other", Some(ArgValue::Other), 1)?,
    ]?)
}

// Names with texts.
fn named(alloc: Global) -> Result<Vec<Row>, AllocError> {
    Ok(vec![in alloc;
        row(alloc, "a<int>", words(alloc, "x")?, 2)?,
        row(alloc, "a<char>", words(alloc, "y<1>")?, 3)?,
        row(alloc, "a<char>", words(alloc, "x")?, 4)?,
        row(alloc, "b", words(alloc, "y<2>")?, 5)?,
    ]?)
}

// Templates may stand in texts of both.
fn of_templates(alloc: Global) -> Result<Vec<Column>, AllocError> {
    Ok(vec![in alloc; Column::Name, Column::Argument(Text::of(alloc, "k")?)]?)
}

// And in none of these.
fn of_none(alloc: Global) -> Result<Vec<Column>, AllocError> {
    Ok(vec![in alloc; Column::Process, Column::File]?)
}

fn condition(alloc: Global, operator: &str, text: &str) -> Result<Condition, AllocError> {
    Ok(Condition {
        column: Column::File,
        negated: matches!(operator, "!=" | "!~"),
        contains: matches!(operator, "~" | "!~"),
        text: Text::of(alloc, text)?,
    })
}

// By one condition, on the last column.
fn by(alloc: Global, operator: &str, text: &str, merges: bool) -> Result<Narrowing, AllocError> {
    Ok(Narrowing {
        conditions: vec![in alloc; condition(alloc, operator, text)?]?,
        merges,
    })
}

fn without_conditions(alloc: Global, merges: bool) -> Narrowing {
    Narrowing {
        conditions: Vec::new(alloc),
        merges,
    }
}

// The first value of each key, its count, and a blank behind both.
fn shown(alloc: Global, table: &Table) -> Result<String, AllocError> {
    let mut text = String::new(alloc);
    for row in OrderedTable::of(alloc, table)?.rows() {
        let row = row.row();
        let count = row.sums.count;
        match row.key.values() {
            [Some(ArgValue::Words(name)), ..] => {
                let name = name.as_str();
                write!(text, "{name} {count} ")?;
            }
            _ => write!(text, "? {count} ")?,
        }
    }
    Ok(text)
}

// What is shown of a table once it is narrowed.
fn left(
    alloc: Global,
    columns: &[Column],
    rows: Vec<Row>,
    narrowing: &Narrowing,
) -> Result<String, SumFault> {
    let table = table(alloc, columns, rows)?;
    let table = narrowed(alloc, HashKeys::fixed(), narrowing, table)?;
    Ok(shown(alloc, &table)?)
}

#[test]
fn conditions_on_values_of_each_kind(rt: HostRuntime) -> Result<(), Fail> {
    let alloc = rt.alloc();
    for (operator, text, expected) in [
        ("=", "", "missing 1 "),
        ("!=", "", "nil 1 no 1 other 1 whole 1 words 1 yes 1 "),
        ("=", "null", "nil 1 "),
        (
            "!=",
            "null",
            "missing 1 no 1 other 1 whole 1 words 1 yes 1 ",
        ),
        ("=", "false", "no 1 "),
        ("=", "true", "yes 1 "),
        ("=", "-70", "whole 1 "),
        ("=", "l=<7>", "words 1 "),
        ("=", "...", "other 1 "),
        ("=", "l", ""),
        ("~", "l", "nil 1 no 1 words 1 "),
        ("~", "7", "whole 1 words 1 "),
        ("!~", "7", "missing 1 nil 1 no 1 other 1 yes 1 "),
        ("~", "...", "other 1 "),
    ] {
        let narrowing = by(alloc, operator, text, false)?;
        let found = left(alloc, &of_none(alloc)?, kinds(alloc)?, &narrowing)?;
        assert_eq!(rt; found.as_str(), expected, "{operator}{text}");
    }
    Ok(())
}

#[test]
fn adds_what_conditions_told_apart(rt: HostRuntime) -> Result<(), Fail> {
    let alloc = rt.alloc();
    let narrowing = by(alloc, "!=", "y<2>", false)?;
    let table = table(alloc, &of_templates(alloc)?, named(alloc)?)?;
    let table = narrowed(alloc, HashKeys::fixed(), &narrowing, table)?;
    assert_eq!(rt; shown(alloc, &table)?.as_str(), "a<char> 7 a<int> 2 ");
    let schema = table.schema();
    assert!(rt; schema.columns.as_slice() == [Column::Name].as_slice());
    assert_eq!(rt; schema.of, Of::Spans);
    assert_eq!(rt; table.counts(), COUNTS);
    Ok(())
}

#[test]
fn merges_before_conditions(rt: HostRuntime) -> Result<(), Fail> {
    let alloc = rt.alloc();
    let narrowing = by(alloc, "=", "y<$>", true)?;
    let found = left(alloc, &of_templates(alloc)?, named(alloc)?, &narrowing)?;
    assert_eq!(rt; found.as_str(), "a<$> 3 b 5 ");
    Ok(())
}

#[test]
fn adds_what_is_merged(rt: HostRuntime) -> Result<(), Fail> {
    let alloc = rt.alloc();
    let narrowing = without_conditions(alloc, true);
    let found = left(alloc, &of_templates(alloc)?, named(alloc)?, &narrowing)?;
    assert_eq!(rt; found.as_str(), "a<$> 6 a<$> 3 b 5 ");
    let found = left(alloc, &of_none(alloc)?, named(alloc)?, &narrowing)?;
    assert_eq!(rt; found.as_str(), "a<char> 4 a<char> 3 a<int> 2 b 5 ");
    Ok(())
}

#[test]
fn leaves_a_table_as_it_is(rt: HostRuntime) -> Result<(), Fail> {
    let alloc = rt.alloc();
    let narrowing = without_conditions(alloc, false);
    let found = left(alloc, &of_templates(alloc)?, named(alloc)?, &narrowing)?;
    assert_eq!(rt; found.as_str(), "a<char> 4 a<char> 3 a<int> 2 b 5 ");
    Ok(())
}

#[test]
fn sums_by_the_columns_of_conditions(rt: HostRuntime) -> Result<(), Fail> {
    let alloc = rt.alloc();
    let narrowing = by(alloc, "=", "a", false)?;
    let columns = summed_by(alloc, &[Column::File, Column::Name], &narrowing)?;
    let expected = [Column::File, Column::Name, Column::File];
    assert!(rt; columns.as_slice() == expected.as_slice());
    Ok(())
}
