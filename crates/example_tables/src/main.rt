//! Sums trace event files by name, each a run of its own, and prints the ten names with the greatest total.
#![tactic(auto)]

use span_tasks::{
    AskedNumbers, Audience, Column, Files, Items, LinesTo, Named, Narrowing, Number, Of, Place,
    Request, Session, Settings, Shown, TableForm, TableOptions, TableText, Tabulation, Task, Text,
    Unwatched, Writer, default_settings,
};
use std::alloc::{AllocError, Global};
use std::process::ExitCode;
use std::{env, io};

fn request_of(alloc: Global, given: Vec<Text>) -> Result<Request, AllocError> {
    let (only, skip) = (Vec::new(alloc), Vec::new(alloc));
    // The files are collected beside each other, so none of them has all processors.
    let settings = Settings {
        alone: false,
        ..default_settings()
    };
    let options = TableOptions {
        of: Of::Spans,
        columns: Vec::from_array(alloc, [Column::Name])?,
        numbers: AskedNumbers {
            audience: Audience::People,
            named: Vec::new(alloc),
            by: Some(Number::Total),
        },
        narrowing: Narrowing {
            conditions: Vec::new(alloc),
            merges: false,
        },
        shown: Shown { only, skip },
    };
    let task = Task::Tabulate(Tabulation {
        items: Items::Apart(settings),
        jobs: None,
        options,
        text: TableText::Table(TableForm::Ranking { most: 10 }),
    });
    let files = Named { given, list: None };
    Ok(Request::Run { task, files })
}

fn main(rt: HostRuntime) -> io::Result<ExitCode> {
    let alloc = rt.alloc();
    let mut files = Vec::new(alloc);
    for word in env::args(&rt)?.skip(1) {
        files.push(Text::of(alloc, word.as_str())?)?;
    }
    let source = Files::new(&rt, Unwatched);
    let mut session = Session {
        place: Place {
            rt: &rt,
            alloc,
            source: &source,
            takes_hints: false,
            ends: true,
        },
        output: Writer::new(rt.stdout()),
        lines: LinesTo {
            sink: Writer::new(rt.stderr()),
            takes_hints: false,
        },
    };
    Ok(ExitCode::from(session.perform(request_of(alloc, files)?)))
}
