//! What no run of the program shows of collections: their threads in each order, queries, and no file.
mod orders;
mod steps;

use span_collect::{
    Asked, Cause, CollectError, Format, FreeGate, Input, Query, Settings, Text, Unit, Writer,
    collect, collect_to_ledger, numbered_text, run,
};
use std::alloc::{AllocError, AllocGlobal, Global};
use std::process::Abort;
use std::random::RandomSource;
use std::sync::Wait;
use std::test::Fail;
use std::thread::Threads;
use steps::{FREE, Steps};

const ASKS: [Query; 2] = [Query::Counts, Query::Counts];

// A journal of so many entries, and nothing sealed, by a collection with no other beside it.
const fn up_to(limit: u32) -> Settings {
    Settings {
        format: Format::of(Unit::Microseconds),
        limit,
        seal: false,
        strict: false,
        alone: true,
    }
}

fn files_of(alloc: Global, texts: &[&str]) -> Result<Vec<Input>, AllocError> {
    let mut files = Vec::new(alloc);
    for text in texts {
        files.push(Input {
            name: Text::of(alloc, "trace.json")?,
            bytes: Vec::from_slice(alloc, text.as_bytes())?,
        })?;
    }
    Ok(files)
}

// Whether a run of these files and the two queries, up to a limit, has this status and writes this text.
fn is_run(
    rt: &(impl Threads + Wait + RandomSource + Sync + Abort + AllocGlobal),
    files: &[Input],
    limit: u32,
    status: u8,
    text: &str,
) -> Result<Asked, Fail> {
    let mut out = Vec::new(rt.alloc());
    let end = run(
        rt,
        rt.alloc(),
        files,
        &ASKS,
        &up_to(limit),
        &mut Writer::new(&mut out),
    )?;
    let asked = end.asked;
    let ended = end.status;
    drop(end);
    assert_eq!(rt; ended, status);
    assert_eq!(rt; out.as_slice(), text.as_bytes());
    drop(out);
    Ok(asked)
}

#[test]
fn a_query_may_meet_the_limit(rt: HostRuntime) -> Result<(), Fail> {
    let files = files_of(rt.alloc(), &["[]"])?;
    let one = is_run(&rt, &files, 1, 2, "")?;
    let both = is_run(
        &rt,
        &files,
        2,
        0,
        "tracebook 1\nevents 0 refused 0 skipped 0 queries 2\n",
    )?;
    drop(files);
    assert_eq!(rt;
        one,
        Asked {
            done: 1,
            cause: Some(Cause::Full)
        }
    );
    assert_eq!(rt;
        both,
        Asked {
            done: 2,
            cause: None
        }
    );
    Ok(())
}

// Of these files the second has an element too many, and the third a byte.
#[test]
fn files_are_held_against_the_bounds_of_the_settings(rt: HostRuntime) -> Result<(), Fail> {
    let files = files_of(rt.alloc(), &["[1]  ", "[1,2]", "[1]   "])?;
    let mut settings = up_to(9);
    settings.format.most_bytes = 5;
    settings.format.most_elements = 1;
    let collected = collect_to_ledger(&rt, rt.alloc(), &files, &[], &settings);
    drop(files);
    let collected = collected?;
    let unread = collected.end.unread();
    drop(collected);
    assert_eq!(rt; unread, 2);
    Ok(())
}

#[test]
fn no_file_is_refused(rt: HostRuntime) -> Result<(), Fail> {
    match collect(&rt, rt.alloc(), &[], &ASKS, &FreeGate, &up_to(9)) {
        Ok(outcome) => {
            drop(outcome);
            Err("collected")?
        }
        Err(error) => assert_eq!(rt; error.code(), 41),
    }
    Ok(())
}

#[test]
fn a_number_may_have_no_word(rt: HostRuntime) -> Result<(), Fail> {
    assert_eq!(rt; numbered_text(rt.alloc(), 43)?.as_str(), "43 Unaccounted");
    assert_eq!(rt; numbered_text(rt.alloc(), 20)?.as_str(), "20");
    Ok(())
}

fn files_at_last(alloc: Global) -> Result<Vec<Input>, AllocError> {
    match files_of(alloc, &["[1,2]", "[3,4]"]) {
        Ok(files) => Ok(files),
        Err(_) => files_of(alloc, &["[1,2]", "[3,4]"]),
    }
}

// A collection that is refused for want of memory was refused before any worker came to its file, and anyone to a step: this runs with
// each allocation refused in turn, by tests/refused_allocations.
#[test]
fn memory_is_refused_before_the_first_step(rt: HostRuntime) -> Result<(), Fail> {
    let files = files_at_last(rt.alloc())?;
    let gate = Steps::new(&FREE);
    let collected = collect(&rt, rt.alloc(), &files, &ASKS, &gate, &up_to(9));
    drop(files);
    match collected {
        Ok(outcome) => drop(outcome),
        Err(CollectError::Memory) => assert!(rt; gate.are([0; 3])),
        Err(error) => Err(Fail::from(error))?,
    }
    Ok(())
}
