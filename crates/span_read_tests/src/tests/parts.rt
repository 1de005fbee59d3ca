//! Texts that are read in parts, wherever they are cut.
use span_read::{Format, ItemBlocks, Items, Reading, Unit, read_items_in, read_items_in_parts};
use std::alloc::{AllocError, AllocGlobal, Global};
use std::process::Abort;
use std::test::Fail;
use std::thread::Threads;

// A comma between two braces stands in strings, in values of elements, and in the members around the elements.
const OBJECT: &str =
    r#"{"first":[{},{}],"traceEvents":[{"ph":"i","ts":1,"name":"},{"},{"ph":"i","ts":2,"args":{"x":[{},{}]}}, {"ph":"i","ts":3,"name":"\"},{"},{"ph":"i","ts":4},{"ph":"i","ts":5}],"last":[{},{}]}"#;

const PLAIN_OBJECT: &str =
    r#"{"traceEvents":[{"ph":"i","ts":1},{"ph":"i","ts":2,"name":"},{"},{"ph":"i","ts":3},{"ph":"i","ts":4},{"ph":"i","ts":5}]}"#;

const TWICE: &str =
    r#"{"traceEvents":[{"ph":"i","ts":1},{},{},{}],"traceEvents":[{"ph":"i","ts":2},{},{},{},{}]}"#;

const ARRAY: &str =
    r#"[{"ph":"i","ts":1},{"ph":"i","ts":2,"args":{"x":[{},{}]}},{"ph":"R"},5,{"ph":"i","ts":3,"name":"},{}"}]"#;

const UNFINISHED: &str =
    r#"[{"ph":"i","ts":1},{"ph":"i","ts":2},{"ph":"i","ts":3},{"ph":"i","ts":4},{"ph":"i","ts":5},"#;

const BROKEN: &str =
    r#"[{"ph":"i","ts":1},{"ph":"i","ts":2},{"ph":"i","ts":3}{"ph":"i","ts":4},{"ph":"i","ts":5}]"#;

const OPEN_STRING: &str =
    r#"[{"ph":"i","ts":1},{"ph":"i","ts":2},{"ph":"i","name":"},{"ph":"i","ts":4},{"ph":"i","ts":5}]"#;

const TOO_MANY: &str = "[{},{},{},{},{},{}]";

const FORMAT: Format = Format {
    unit: Unit::Microseconds,
    most_bytes: 1000,
    most_elements: 5,
};

// The text with so many blanks before it, which move the places at which it is cut.
fn shifted(alloc: Global, text: &str, blanks: usize) -> Result<String, AllocError> {
    let mut shifted = String::new(alloc);
    for _ in 0..blanks {
        shifted.push(' ')?;
    }
    shifted.push_str(text)?;
    Ok(shifted)
}

fn as_list(alloc: Global, items: ItemBlocks) -> Result<Items, AllocError> {
    let mut list = Vec::new(alloc);
    let count = items.len();
    let mut items = items.into_remaining();
    for _ in 0..count {
        if let Some(item) = items.next() {
            list.push(item)?;
        }
    }
    Ok(Items::of_list(list))
}

// What a file is in one part has so many items, or this number; and in several parts it is the same.
fn is_the_same(
    rt: &(impl Threads + Sync + Abort + AllocGlobal),
    text: &str,
    parts: u32,
    wanted: Result<usize, u16>,
) -> Result<(), Fail> {
    let alloc = rt.alloc();
    let bytes = text.as_bytes();
    let reading = Reading {
        format: FORMAT,
        parts,
    };
    let in_one = read_items_in(alloc, FORMAT, bytes);
    let in_parts = read_items_in_parts(rt, alloc, reading, bytes);
    match (in_one, in_parts) {
        (Ok(in_one), Ok(in_parts)) => {
            assert_eq!(rt; Ok(in_one.len()), wanted);
            let in_parts = as_list(alloc, in_parts)?;
            let one = format!(in alloc; "{in_one:?}");
            let other = format!(in alloc; "{in_parts:?}");
            drop(in_one);
            drop(in_parts);
            assert_eq!(rt; one?.as_str(), other?.as_str());
        }
        (in_one, in_parts) => {
            let one = in_one
                .map(|items| items.len())
                .map_err(|error| error.code());
            let other = in_parts
                .map(|items| items.len())
                .map_err(|error| error.code());
            assert_eq!(rt; one, wanted);
            assert_eq!(rt; other, wanted);
        }
    }
    Ok(())
}

// Wherever the text is cut in two, and in several parts.
fn is_the_same_anywhere(
    rt: &(impl Threads + Sync + Abort + AllocGlobal),
    text: &str,
    wanted: Result<usize, u16>,
) -> Result<(), Fail> {
    for blanks in 0..text.len() {
        let shifted = shifted(rt.alloc(), text, blanks)?;
        is_the_same(rt, shifted.as_str(), 2, wanted)?;
    }
    for parts in 1..9 {
        is_the_same(rt, text, parts, wanted)?;
    }
    Ok(())
}

#[test]
fn a_text_is_the_same_in_parts(rt: HostRuntime) -> Result<(), Fail> {
    for text in [OBJECT, PLAIN_OBJECT, TWICE, ARRAY, UNFINISHED] {
        is_the_same_anywhere(&rt, text, Ok(5))?;
    }
    Ok(())
}

#[test]
fn a_text_is_refused_the_same_in_parts(rt: HostRuntime) -> Result<(), Fail> {
    is_the_same_anywhere(&rt, BROKEN, Err(1))?;
    is_the_same_anywhere(&rt, OPEN_STRING, Err(1))?;
    is_the_same_anywhere(&rt, TOO_MANY, Err(4))?;
    Ok(())
}
