//! Collections of two files and two queries in each order of their callers: separate files have one report in all of them.
use super::steps::{FREE, Order, Steps};
use super::{ASKS, files_of, up_to};
use span_collect::{FileEnd, Input, Outcome, Settings, collect};
use span_report::report;
use std::alloc::AllocGlobal;
use std::process::Abort;
use std::random::RandomSource;
use std::sync::Wait;
use std::test::Fail;
use std::thread::Threads;

// Both workers read at once, and then all are at their second call at once.
const TOGETHER: Order = [
    [[1, 1, 0], [0; 3], [3, 3, 2]],
    [[1, 1, 0], [0; 3], [3, 3, 2]],
    [[0; 3], [3, 3, 2], [0; 3]],
];

// A worker's first item, and so its caller's entry, is the journal's first: it reads once the others are at the gate, each before its
// first step, and they go on once it is at its second item.
const FIRST_AHEAD: Order = [
    [[0, 2, 0], [0; 3], [0; 3]],
    [[0, 0, 1], [3, 0, 0], [0; 3]],
    [[3, 0, 0], [0; 3], [0; 3]],
];

const SECOND_AHEAD: Order = [
    [[0, 0, 1], [0, 3, 0], [0; 3]],
    [[2, 0, 0], [0; 3], [0; 3]],
    [[0, 3, 0], [0; 3], [0; 3]],
];

// So is the first query, while the first file isn't even read.
const ASKING_AHEAD: Order = [
    [[0, 3, 2], [0; 3], [0; 3]],
    [[0; 3], [0, 0, 2], [0; 3]],
    [[0, 2, 0], [0; 3], [0; 3]],
];

// An order, and the caller of the journal's first entry.
const ORDERS: [(Order, Option<u32>); 5] = [
    (FREE, None),
    (TOGETHER, None),
    (FIRST_AHEAD, Some(1)),
    (SECOND_AHEAD, Some(2)),
    (ASKING_AHEAD, Some(0)),
];

// As `up_to`, where each file is read by its worker alone.
const fn by_workers(limit: u32) -> Settings {
    Settings {
        alone: false,
        ..up_to(limit)
    }
}

// Each file was read under the number of its place, and both queries were asked.
fn is_whole(rt: &impl Abort, outcome: &Outcome, first: Option<u32>) {
    let ends = [1, 2].map(|caller| FileEnd::Read { caller, items: 2 });
    assert!(rt; outcome.files.as_slice() == ends.as_slice());
    assert_eq!(rt; outcome.asked.done, 2);
    assert!(rt; outcome.asked.cause.is_none() && outcome.sealing.cause.is_none());
    let caller = outcome.ledger.entry(0).map(|entry| entry.caller);
    assert!(rt; first.is_none() || caller == first);
}

fn report_in(
    rt: &(impl Threads + Wait + RandomSource + Sync + Abort + AllocGlobal),
    files: &[Input],
    settings: &Settings,
    order: &(Order, Option<u32>),
) -> Result<Vec<u8>, Fail> {
    let gate = Steps::new(&order.0);
    let outcome = collect(rt, rt.alloc(), files, &ASKS, &gate, settings)?;
    is_whole(rt, &outcome, order.1);
    let text = report(rt.alloc(), settings.format.unit, &outcome.ledger);
    drop(outcome);
    assert!(rt; gate.are([3, 3, 2]));
    Ok(text?)
}

const CLOSED: [&str; 2] = [
    r#"[{"ph":"B","name":"a","ts":1,"pid":1,"tid":2},{"ph":"E","ts":11,"pid":1,"tid":2}]"#,
    r#"[{"ph":"B","name":"a","ts":1,"pid":2,"tid":2},{"ph":"E","ts":11,"pid":2,"tid":2}]"#,
];

const CLOSED_REPORT: &str = r#"tracebook 1
events 4 refused 0 skipped 0 queries 2
process 1 -
thread 1 2 - open 0 busy 10
span        1               10               10 "a"
process 2 -
thread 2 2 - open 0 busy 10
span        1               10               10 "a"
"#;

const CUT: [&str; 2] = [
    r#"[{"ph":"B","name":"a","ts":1,"pid":1},{"ph":"B","name":"b","ts":3,"pid":1},"#,
    r#"[{"ph":"B","name":"a","ts":2,"pid":2},{"ph":"X","name":"c","ts":4,"dur":3,"pid":2},"#,
];

const CUT_REPORT: &str = r#"tracebook 1
events 4 refused 0 skipped 0 queries 2
seals 2
process 1 -
thread 1 0 - open 0 busy 2
span        1                2                2 "a"
span        1                0                0 "b"
process 2 -
thread 2 0 - open 0 busy 5
span        1                5                2 "a"
span        1                3                3 "c"
"#;

fn have_report(
    rt: &(impl Threads + Wait + RandomSource + Sync + Abort + AllocGlobal),
    texts: &[&str],
    settings: &Settings,
    order: &(Order, Option<u32>),
    wanted: &str,
) -> Result<(), Fail> {
    let files = files_of(rt.alloc(), texts)?;
    let text = report_in(rt, &files, settings, order);
    drop(files);
    assert!(rt; text?.as_slice() == wanted.as_bytes());
    Ok(())
}

#[test]
fn separate_files_have_one_report_in_each_order(rt: HostRuntime) -> Result<(), Fail> {
    let mut sealed = by_workers(100);
    sealed.seal = true;
    for order in &ORDERS {
        have_report(&rt, &CLOSED, &by_workers(100), order, CLOSED_REPORT)?;
        have_report(&rt, &CLOSED, &sealed, order, CLOSED_REPORT)?;
        have_report(&rt, &CUT, &sealed, order, CUT_REPORT)?;
    }
    Ok(())
}

const SAMPLES: [&str; 2] = [
    r#"[{"ph":"C","name":"m","pid":1,"ts":5,"args":{"k":1}},{"ph":"Z"}]"#,
    r#"[{"ph":"C","name":"m","pid":1,"ts":5,"args":{"k":2}},{"ph":"Z"}]"#,
];

// Of two files that have a counter in common the later sample is the last.
#[test]
fn other_files_have_the_report_of_their_order(rt: HostRuntime) -> Result<(), Fail> {
    for (order, last) in [(&ORDERS[2], 2), (&ORDERS[3], 1)] {
        let wanted = format!(in rt.alloc();
            "tracebook 1\nevents 2 refused 0 skipped 2 queries 2\nprocess 1 -\ncounter 1 \"m\" - \"k\" samples 2 least 1 greatest 2 last {last}\n"
        )?;
        have_report(&rt, &SAMPLES, &by_workers(100), order, wanted.as_str())?;
    }
    Ok(())
}
