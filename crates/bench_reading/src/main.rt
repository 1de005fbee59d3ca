//! Reads a trace from standard input and counts its items by kind: a program to be timed.
//! With the word `json` the text is only parsed. With the word `parts` it is read in a part for each processor that the system grants,
//! with the word `timed` behind the counts it says how long the reading alone took, without that of standard input.
#![tactic(auto)]

use serde_json::Value;
use span_event::Item;
use span_read::{Format, ItemBlocks, ReadError, Reading, Unit, read_items_in_parts};
use std::alloc::Global;
use std::io::{self, Read};
use std::thread::Threads;
use std::time::Instant;
use std::{env, str, thread};

// How many items are good events, faults, and other events.
fn counts(items: ItemBlocks) -> (u64, u64, u64) {
    let mut good = 0u64;
    let mut faults = 0u64;
    let mut others = 0u64;
    let count = items.len();
    let mut items = items.into_remaining();
    for _ in 0..count {
        match items.next() {
            Some(Item::Good(_)) => good = good.saturating_add(1),
            Some(Item::Bad(_)) => faults = faults.saturating_add(1),
            Some(Item::Other) => others = others.saturating_add(1),
            None => {}
        }
    }
    (good, faults, others)
}

fn is_json(alloc: Global, bytes: &[u8]) -> bool {
    match str::from_utf8(bytes) {
        Ok(text) => Value::from_str(alloc, text).is_ok(),
        Err(_) => false,
    }
}

fn print_counts(rt: &impl Print, read: Result<ItemBlocks, ReadError>) -> io::Result<()> {
    match read {
        Ok(items) => {
            let (good, faults, others) = counts(items);
            println!(rt; "good {good} faults {faults} others {others}")
        }
        Err(error) => println!(rt; "{error}"),
    }
}

fn processors<R: Threads>(rt: &R) -> u32 {
    match thread::available_parallelism(rt) {
        Ok(count) => count.get().min(64) as u32,
        Err(_) => 1,
    }
}

fn has_word(rt: &HostRuntime, word: &str) -> io::Result<bool> {
    Ok(env::args(rt)?.any(|given| given.as_str() == word))
}

fn main(rt: HostRuntime) -> io::Result<()> {
    let alloc = rt.alloc();
    let mut bytes = Vec::new(alloc);
    rt.stdin().read_to_end(&mut bytes)?;
    if has_word(&rt, "json")? {
        let is_json = is_json(alloc, &bytes);
        return println!(rt; "json {is_json}");
    }
    let parts = if has_word(&rt, "parts")? {
        processors(&rt)
    } else {
        1
    };
    let reading = Reading {
        format: Format::of(Unit::Microseconds),
        parts,
    };
    let begun = Instant::now(&rt)?;
    let read = read_items_in_parts(&rt, alloc, reading, &bytes);
    let took = begun.elapsed(&rt)?.as_micros();
    print_counts(&rt, read)?;
    if has_word(&rt, "timed")? {
        println!(rt; "microseconds {took}")?;
    }
    Ok(())
}
