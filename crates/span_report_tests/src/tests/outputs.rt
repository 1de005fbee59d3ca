//! Outputs that take a text, or fail. What the texts say is tried by the cases of tests/acceptance.

use super::output::{End, Output};
use super::told::told;
use span_event::Unit;
use span_ledger::Ledger;
use span_report::{WriteFault, Writer, write_report};
use std::alloc::{AllocGlobal, Global};
use std::process::Abort;
use std::test::Fail;

fn write(alloc: Global, ledger: &Ledger, output: &mut Output) -> Result<(), WriteFault> {
    write_report(alloc, Unit::Microseconds, ledger, &mut Writer::new(output))
}

// The output fails once it has the first `count` bytes of the text. It is written to so often and flushed so often.
fn fails_after(
    rt: &(impl Abort + AllocGlobal),
    ledger: &Ledger,
    mut output: Output,
    (text, count): (&[u8], usize),
    calls: (u64, u64),
) {
    let result = write(rt.alloc(), ledger, &mut output);
    let written = count as u64;
    assert!(rt; result == Err(WriteFault::Output { written }), "at {count}");
    assert!(rt;
        Some(output.taken.as_slice()) == text.get(..count),
        "at {count}"
    );
    assert_eq!(rt; (output.writes, output.flushes), calls, "at {count}");
}

fn fails_wherever(rt: &(impl Abort + AllocGlobal), ledger: &Ledger, text: &[u8]) {
    let alloc = rt.alloc();
    for room in [1, text.len() / 2, text.len().saturating_sub(1)] {
        let output = Output::of_room(alloc, room);
        fails_after(rt, ledger, output, (text, room), (2, 0));
    }
    for end in [End::Broken, End::Interrupted, End::TakesNothing] {
        let output = Output::new(alloc, 0, end, true);
        fails_after(rt, ledger, output, (text, 0), (1, 0));
    }
    let unfinished = Output::new(alloc, text.len(), End::Broken, false);
    fails_after(rt, ledger, unfinished, (text, text.len()), (1, 1));
}

// An output with room has the text by one write and one flush; one that fails is not tried again.
fn is_written_once(rt: &(impl Abort + AllocGlobal), ledger: &Ledger) {
    let mut output = Output::of_room(rt.alloc(), 1_000_000);
    let result = write(rt.alloc(), ledger, &mut output);
    assert!(rt; result == Ok(()));
    assert_eq!(rt; (output.writes, output.flushes), (1, 1));
    fails_wherever(rt, ledger, &output.taken);
    drop(output);
}

#[test]
fn finishes_once_and_tries_no_failed_write_again(rt: HostRuntime) -> Result<(), Fail> {
    let span = r#"[{"ph":"X","name":"a","ts":0,"dur":5,"pid":1,"tid":2}]"#;
    let ledger = told(rt.alloc(), span).ok_or("not told")?;
    is_written_once(&rt, &ledger);
    drop(ledger);
    Ok(())
}
