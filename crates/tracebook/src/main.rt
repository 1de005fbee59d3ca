//! Reports where the time went in trace event files.
#![tactic(auto)]

mod progress;

use progress::{Cleared, Progress};
use span_tasks::{Files, LinesTo, Place, Session, Text, Writer};
use std::io::{ErrorKind, IsTerminal};
use std::process::ExitCode;
use std::{env, io};

// The words of the command line behind the program's name. Each of them must be text.
fn words(rt: &HostRuntime) -> io::Result<Vec<Text>> {
    let alloc = rt.alloc();
    let mut words = Vec::new(alloc);
    for word in env::args(rt)?.skip(1) {
        words.push(Text::of(alloc, word.as_str())?)?;
    }
    Ok(words)
}

// Says why there are no words. Nothing can be done where standard error fails.
fn fail_without_words(rt: &HostRuntime, error: io::Error) -> ExitCode {
    let _ = match error.kind() {
        ErrorKind::OutOfMemory => eprintln!(rt; "tracebook: 31 Memory"),
        _ => eprintln!(rt; "tracebook: a word of the command line is not UTF-8 text"),
    };
    ExitCode::from(2)
}

// Whether a terminal is to get plain text alone, by the environment's customs.
fn is_plain(rt: &HostRuntime) -> bool {
    let is_dumb = match env::var(rt, "TERM") {
        Ok(name) => name.as_str() == "dumb",
        Err(_) => false,
    };
    let has_no_color = match env::var(rt, "NO_COLOR") {
        Ok(value) => !value.is_empty(),
        Err(_) => false,
    };
    is_dumb || has_no_color
}

fn main(rt: HostRuntime) -> ExitCode {
    let words = match words(&rt) {
        Ok(words) => words,
        Err(error) => return fail_without_words(&rt, error),
    };
    let is_terminal = rt.stderr().is_terminal();
    let shows_progress = is_terminal && !is_plain(&rt);
    let progress = Progress::new(&rt, shows_progress, is_terminal);
    let source = Files::new(&rt, progress);
    let mut session = Session {
        place: Place {
            rt: &rt,
            alloc: rt.alloc(),
            source: &source,
            takes_hints: is_terminal,
            ends: true,
        },
        output: Writer::new(Cleared::new(&rt, rt.stdout(), shows_progress)),
        lines: LinesTo {
            sink: Writer::new(Cleared::new(&rt, rt.stderr(), shows_progress)),
            takes_hints: is_terminal,
        },
    };
    ExitCode::from(session.perform_words(words))
}
