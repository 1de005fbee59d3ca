//! Repeated runs of which a side has none, by the column `file`. The program asks for neither.

use super::told::told;
use span_comparisons::{Comparing, json_repeats, repeats};
use span_event::{Text, Unit};
use span_names::HashKeys;
use span_table::{Column, Number, Of, OrderedTable, Schema, Table};
use span_table_text::Shown;
use std::alloc::Global;
use std::test::Fail;

const TEXT: &str = r#"tracebook 1
base events 0 refused 0 skipped 0 queries 0
base runs 0 files 0 unread 0
events 1 refused 0 skipped 0 queries 0
runs 1 files 1 unread 0
         dmedian          median0          median1           least0        greatest0           least1        greatest1 file
              +5                0                5                0                0                5                5 "x.json"
overlap 0 same 0
"#;

const LINES: &str =
    r#"{"tracebook":1,"columns":["file"],"rows":1,"same":0,"base":{"runs":1,"files":1,"unread":0,"events":1,"refused":0,"skipped":0,"queries":0,"seals":0},"other":{"runs":0,"files":0,"unread":0,"events":0,"refused":0,"skipped":0,"queries":0,"seals":0}}
{"file":"x.json","values0":[5],"values1":[]}
"#;

// The table of a file with a span, by the name of the file.
fn table_of_a_file(alloc: Global) -> Option<Table> {
    let file = Text::of(alloc, "x.json").ok()?;
    let ledger = told(alloc, r#"[{"ph":"X","name":"a","ts":0,"dur":5}]"#)?;
    let schema = Schema::usual(alloc, Of::Spans, &[Column::File]).ok()?;
    let table = Table::of(alloc, HashKeys::fixed(), schema, &ledger, 1, 0, Some(&file));
    drop(ledger);
    table.ok()
}

#[test]
fn a_side_may_have_no_repetitions(rt: HostRuntime) -> Result<(), Fail> {
    let alloc = rt.alloc();
    let table = table_of_a_file(alloc).ok_or("no table")?;
    let one = [OrderedTable::of(alloc, &table)?];
    let (unit, by, columns) = (Unit::Microseconds, Number::Total, [Column::File]);
    let schema = Schema::usual(alloc, Of::Spans, &columns)?;
    let all = Shown {
        only: Vec::new(alloc),
        skip: Vec::new(alloc),
    };
    let asked = Comparing {
        unit,
        by,
        shown: &all,
        most: None,
    };
    let text = repeats(alloc, &columns, &[], &one, &asked)?;
    assert!(rt; text.as_slice() == TEXT.as_bytes());
    let Ok(lines) = json_repeats(alloc, &schema, &one, &[], &asked) else {
        return Err(Fail::from("no text"));
    };
    assert!(rt; lines.as_slice() == LINES.as_bytes());
    Ok(())
}
