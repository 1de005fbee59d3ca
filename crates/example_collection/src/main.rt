//! Collects two traces with a worker for each, asks two questions while the workers run, and prints the report, how each file ended,
//! and what was replied, as far as no schedule can change it.
#![tactic(auto)]

use span_collect::{
    Answer, Collected, CountRow, Format, Input, Ledger, Query, Reply, Settings, Text, Unit, Writer,
    run_to_ledger,
};
use std::alloc::{AllocError, Global};
use std::io;
use std::process::ExitCode;

const SERVER: &str = r#"[{"ph":"M","name":"process_name","pid":1,"args":{"name":"server"}},
    {"ph":"B","name":"request","ts":0,"pid":1,"tid":1},
    {"ph":"X","name":"query","ts":20,"dur":60,"pid":1,"tid":1},
    {"ph":"E","ts":100,"pid":1,"tid":1}]"#;

const CLIENT: &str = r#"[{"ph":"M","name":"process_name","pid":2,"args":{"name":"client"}},
    {"ph":"X","name":"request","ts":-5,"dur":110,"pid":2,"tid":7}]"#;

fn settings() -> Settings {
    Settings {
        format: Format::of(Unit::Microseconds),
        limit: 1000,
        seal: false,
        strict: false,
        alone: true,
    }
}

fn input(alloc: Global, name: &str, text: &str) -> Result<Input, AllocError> {
    let mut bytes = Vec::new(alloc);
    bytes.extend_from_slice(text.as_bytes())?;
    Ok(Input {
        name: Text::of(alloc, name)?,
        bytes,
    })
}

// How many entries a reply counts.
fn entries(counts: &CountRow) -> u64 {
    u64::from(counts.accepted)
        + u64::from(counts.refused)
        + u64::from(counts.skipped)
        + u64::from(counts.queries)
        + u64::from(counts.seals)
}

fn counts_of(answer: &Answer) -> Option<&CountRow> {
    match answer {
        Answer::Reply(reply) => match reply.as_reply() {
            Reply::Counts(counts) => Some(counts),
            _ => None,
        },
        _ => None,
    }
}

// How far the workers were is left to chance. But a reply counts the entries before its query: as many as the journal has there.
fn print_replies(rt: &impl Print, ledger: &Ledger) -> io::Result<()> {
    for position in 0..ledger.len() {
        if let Some(entry) = ledger.entry(position) {
            if let Some(counts) = counts_of(&entry.answer) {
                let is_exact = entries(counts) == u64::from(position);
                println!(rt; "a reply counts the entries before it: {is_exact}")?;
            }
        }
    }
    Ok(())
}

fn print_collected(rt: &HostRuntime, collected: &Collected) -> io::Result<()> {
    for end in &collected.end.ends {
        println!(rt; "{end:?}")?;
    }
    println!(rt; "asked {}", collected.end.asked.done)?;
    print_replies(rt, &collected.ledger)
}

fn main(rt: HostRuntime) -> Result<ExitCode, io::Error> {
    let alloc = rt.alloc();
    let files = [
        input(alloc, "server.json", SERVER)?,
        input(alloc, "client.json", CLIENT)?,
    ];
    let asks = [Query::Counts, Query::Counts];
    let out = &mut Writer::new(rt.stdout());
    let collected = match run_to_ledger(&rt, alloc, &files, &asks, &settings(), out) {
        Ok(collected) => collected,
        Err(error) => {
            eprintln!(rt; "{error}")?;
            return Ok(ExitCode::from(2));
        }
    };
    print_collected(&rt, &collected)?;
    Ok(ExitCode::from(collected.end.status))
}
