//! What no text of a trace shows: the item of a value, the copy of an event, and other bounds. The rest is shown by cases of `example_ledger`, by those
//! of the program, and by tests/many_files.
mod parts;

use serde_json::Value;
use span_read::{Event, Format, Item, Unit, item_of, read_items_in};
use std::alloc::{AllocError, AllocGlobal, Global};
use std::process::Abort;
use std::test::Fail;

// Each field has a value of its own, so that none can stand for another. Of the texts of one event one lies in the value, and one is shared.
const EVENTS: [&str; 3] = [
    r#"{"ph":"b","ts":1,"pid":2,"tid":3,"name":"fourteen bytes","cat":"fifteen bytes..","id2":{"local":4},"scope":"s","args":{"x":5,"y":"w"}}"#,
    r#"{"ph":"X","ts":6,"dur":7,"pid":8,"tid":9,"args":{"n":null,"f":true,"o":{},"d":0.5}}"#,
    r#"{"ph":"i","ts":-1.5,"pid":-2,"tid":-3,"id":0,"s":"p"}"#,
];

const OTHERS: [&str; 4] = [
    "5",
    r#"{"ph":"R","ts":1}"#,
    r#"{"ph":"X","ts":1}"#,
    r#"{"ph":"b","ts":1,"pid":1e3,"id":"a"}"#,
];

fn item_of_value(alloc: Global, unit: Unit, text: &str) -> Result<Item, Fail> {
    let value = Value::from_str(alloc, text)?;
    let item = item_of(alloc, unit, &value);
    drop(value);
    Ok(item?)
}

fn shown(alloc: Global, item: Option<&Item>) -> Result<String, AllocError> {
    format!(in alloc; "{item:?}")
}

// The file that has this element alone has the item of its value alone.
fn agrees(rt: &(impl Abort + AllocGlobal), unit: Unit, text: &str) -> Result<(), Fail> {
    let alloc = rt.alloc();
    let item = item_of_value(alloc, unit, text)?;
    let by_value = shown(alloc, Some(&item));
    drop(item);
    let file = format!(in alloc; "[{text}]")?;
    let items = read_items_in(alloc, Format::of(unit), file.as_bytes())?;
    assert!(rt; !items.is_empty() && items.len() == 1 && items.get(1).is_none());
    let by_text = shown(alloc, items.get(0));
    drop(items);
    assert_eq!(rt; by_value?.as_str(), by_text?.as_str());
    Ok(())
}

#[test]
fn a_value_has_the_item_of_its_text(rt: HostRuntime) -> Result<(), Fail> {
    for text in EVENTS.iter().chain(&OTHERS) {
        agrees(&rt, Unit::Microseconds, text)?;
        agrees(&rt, Unit::Nanoseconds, text)?;
    }
    Ok(())
}

fn event_of(alloc: Global, text: &str) -> Result<Event, Fail> {
    match item_of_value(alloc, Unit::Nanoseconds, text)? {
        Item::Good(event) => Ok(event),
        other => {
            drop(other);
            Err("no event")?
        }
    }
}

#[test]
fn a_copy_outlives_its_event(rt: HostRuntime) -> Result<(), Fail> {
    for text in &EVENTS {
        let event = event_of(rt.alloc(), text)?;
        let wanted = format!(in rt.alloc(); "{event:?}");
        let copy = event.try_clone(rt.alloc());
        drop(event);
        let copy = copy?;
        let copied = format!(in rt.alloc(); "{copy:?}");
        drop(copy);
        assert_eq!(rt; copied?.as_str(), wanted?.as_str());
    }
    Ok(())
}

// How many items a file has that may have nine bytes and three elements, or the number that refuses it.
fn count_of(alloc: Global, text: &str) -> Result<usize, u16> {
    let format = Format {
        unit: Unit::Microseconds,
        most_bytes: 9,
        most_elements: 3,
    };
    match read_items_in(alloc, format, text.as_bytes()) {
        Ok(items) => Ok(items.len()),
        Err(error) => Err(error.code()),
    }
}

#[test]
fn a_file_is_held_against_the_bounds_of_its_format(rt: HostRuntime) -> Result<(), Fail> {
    let alloc = rt.alloc();
    assert_eq!(rt; count_of(alloc, "[1,2,3]  "), Ok(3));
    assert_eq!(rt; count_of(alloc, "[1,2,3,4]"), Err(4));
    assert_eq!(rt; count_of(alloc, "[1,2,3,4] "), Err(3));
    Ok(())
}
