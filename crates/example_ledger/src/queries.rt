//! Queries: a word says what is asked, and the fields of an event of what.

use crate::lines::{Fault, event_of};
use span_event::{BoxedId, Event, Unit};
use span_keyed_tracks::{AsyncKey, FlowKey, SeriesKey};
use span_ledger::Query;
use std::alloc::Global;

/// The query of this word.
pub(crate) fn query_of(alloc: Global, unit: Unit, word: &str, text: &str) -> Result<Query, Fault> {
    if word == "counts" {
        return Ok(Query::Counts);
    }
    let event = event_of(alloc, unit, text)?;
    let (pid, tid) = (event.pid, event.tid);
    match word {
        "thread" => Ok(Query::Thread { pid, tid }),
        "name" => Ok(Query::Name {
            pid,
            tid,
            name: event.name,
        }),
        "process-names" => Ok(Query::NamesOf { pid, tid: None }),
        "thread-names" => Ok(Query::NamesOf {
            pid,
            tid: Some(tid),
        }),
        "async" => async_query(event),
        "flow" => flow_query(event),
        "series" => series_query(alloc, event),
        _ => Err(Fault::Line("no query has this word")),
    }
}

fn id_of(key: Option<BoxedId>) -> Result<BoxedId, Fault> {
    match key {
        Some(id) => Ok(id),
        None => Err(Fault::Line("an event with an id is meant")),
    }
}

fn async_query(event: Event) -> Result<Query, Fault> {
    Ok(Query::AsyncOf(AsyncKey {
        cat: event.cat,
        scope: event.scope,
        id: id_of(event.key)?,
        name: event.name,
    }))
}

fn flow_query(event: Event) -> Result<Query, Fault> {
    Ok(Query::FlowOf(FlowKey {
        cat: event.cat,
        name: event.name,
        id: id_of(event.key)?,
    }))
}

// Of the counter's first series.
fn series_query(alloc: Global, event: Event) -> Result<Query, Fault> {
    let Some((series, _)) = event.args.pairs().first() else {
        return Err(Fault::Line("an event with arguments is meant"));
    };
    Ok(Query::Series(SeriesKey {
        series: series.try_clone(alloc)?,
        pid: event.pid,
        name: event.name,
        id: event.key,
    }))
}
