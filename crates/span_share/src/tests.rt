ghost use Rattle.std.specs.Prelude.{IfSome};
ghost use Rattle.span_share.specs.{IsGoodItem, Seats.IsSeatOf};

use crate::steps::take_turn;
use crate::turn::Returns;
use crate::{Receipt, Seat, Share};
use span_event::{Args, Event, Item, Phase, Text};
use span_journal::{Back, Cause, Op, Query};
use span_ledger::Ledger;
use std::alloc::{AllocGlobal, Global};
use std::process::Abort;
use std::sync::Wait;
use std::test::Fail;
use std::thread;
use std::thread::Threads;

// The begin of a span `a` at a time, on a thread of its own for each number.
fn begin(alloc: Global, thread: u32, time: u32) -> Option<Item>
    ensures { IfSome result IsGoodItem }
{
    let name = Text::of(alloc, "a").ok()?;
    Some(Item::Good(Event {
        phase: Phase::SpanBegin,
        name,
        cat: Text::empty(alloc),
        ts: i64::from(time),
        dur: 0,
        pid: 1,
        tid: i64::from(thread),
        key: None,
        scope: Text::empty(alloc),
        reach: None,
        args: Args::empty(alloc),
    }))
}

// What a thread with a seat of its own does: it tells three spans, and looks how many entries there are.
fn tell_three<R: Wait>(rt: &R, alloc: Global, share: &Share, seat: &mut Seat) -> Option<u32>
    requires { IsSeatOf share.now seat.old }
    ensures { IsSeatOf share.now seat.new }
{
    for time in 0..3 {
        let item = begin(alloc, seat.number(), time)?;
        share.tell(rt, seat, item).ok()?;
    }
    Some(share.front(seat))
}

// Two threads tell one share, each with a seat of its own. After the join the first seat has the callers of both.
fn two_threads_tell<R: Threads + Wait + Sync>(
    rt: &R,
    alloc: Global,
    share: &Share,
    mut first: Seat,
) -> Option<(Seat, u32, u32)>
    requires { IsSeatOf share.now first }
    ensures { IfSome result (λ told. IsSeatOf share.now told.0) }
{
    let second = share.enrol(rt, &mut first).ok()?;
    let ((mut first, front), (second, other)) = thread::join(
        rt,
        move ||
            requires { IsSeatOf share.now first }
            ensures { IsSeatOf share.entry.now result.0 }
        {
            let mut seat = first;
            let front = tell_three(rt, alloc, share, &mut seat);
            (seat, front)
        },
        move ||
            requires { IsSeatOf share.now second }
            ensures { IsSeatOf share.entry.now result.0 }
        {
            let mut seat = second;
            let front = tell_three(rt, alloc, share, &mut seat);
            (seat, front)
        },
    );
    share.meet(&mut first, second);
    Some((first, front?, other?))
}

// The answers that a caller got, in the order of the journal.
fn answers_of(alloc: Global, ledger: &Ledger, caller: u32) -> Result<String, Fail> {
    let mut lines = String::new(alloc);
    for position in 0..ledger.len() {
        let entry = ledger.entry(position).ok_or("no entry")?;
        if entry.caller == caller {
            writeln!(lines, "{:?}", entry.answer)?;
        }
    }
    Ok(lines)
}

fn each_told_three(rt: &(impl Abort + AllocGlobal), ledger: &Ledger) -> Result<(), Fail> {
    let want = "Opened { depth: 1 }\nOpened { depth: 2 }\nOpened { depth: 3 }\n";
    assert_eq!(rt; ledger.len(), 6);
    assert_eq!(rt; answers_of(rt.alloc(), ledger, 0)?.as_str(), want);
    assert_eq!(rt; answers_of(rt.alloc(), ledger, 1)?.as_str(), want);
    Ok(())
}

fn told_by_two_threads<R: Threads + Wait + Sync>(
    rt: &R,
    alloc: Global,
) -> Option<(Ledger, u32, u32)> {
    let (share, seat) = Share::start(alloc, 100, false).ok()?;
    let (seat, front, other) = two_threads_tell(rt, alloc, &share, seat)?;
    let (ledger, _) = share.close(rt, seat);
    Some((ledger, front, other))
}

#[test]
fn two_threads_tell_one_ledger(rt: HostRuntime) -> Result<(), Fail> {
    let (ledger, front, other) = told_by_two_threads(&rt, rt.alloc()).ok_or("not told")?;
    assert!(rt; front >= 3 && front <= 6);
    assert!(rt; other >= 3 && other <= 6);
    each_told_three(&rt, &ledger)
}

// What came back of an operation that was not taken: a query, or the time of an event.
fn put_back(line: &mut String, op: &Op) -> Result<(), Fail> {
    match op {
        Op::One(Item::Good(event)) => write!(line, "event at {}", event.ts)?,
        Op::One(item) => write!(line, "{item:?}")?,
        Op::Ask(query) => write!(line, "{query:?}")?,
        Op::Seal { .. } => return Err(Fail::from("a seal came back")),
    }
    Ok(())
}

// The place and the answer of what was told, or why it wasn't, and what came back.
fn line_of(alloc: Global, told: Result<Receipt, Back>) -> Result<String, Fail> {
    let mut line = String::new(alloc);
    match told {
        Ok(receipt) => write!(line, "{} {:?}", receipt.place, receipt.answer)?,
        Err(back) => {
            write!(line, "{} {:?}: ", back.cause.code(), back.cause)?;
            put_back(&mut line, &back.op)?;
        }
    }
    Ok(line)
}

// While the first seat has the turn, a try of the second is busy and gives the item back, and one after that is taken.
fn one_try_while_another_has_the_turn(
    rt: &(impl Abort + Wait + AllocGlobal),
    share: &Share,
    first: &mut Seat,
    second: &mut Seat,
    item: Item,
) -> Result<(), Fail>
    requires { IsSeatOf share.now first.old × IsSeatOf share.now second.old × IsGoodItem item }
{
    let alloc = rt.alloc();
    take_turn(rt, &share.table.shared, &mut first.token);
    let told = share.try_tell(second, item);
    share
        .table
        .shared
        .fetch_sub::<Returns>(&mut first.token, 0, 1);
    let Err(back) = told else {
        return Err(Fail::from("the turn was taken twice"));
    };
    assert_eq!(rt; back.cause, Cause::Busy { front: 0 });
    assert_eq!(rt; back.cause.code(), 33);
    let item = match back.op {
        Op::One(item) => item,
        Op::Ask(_query) => return Err(Fail::from("another operation came back")),
        Op::Seal {
            pid: _,
            tid: _,
            ts: _,
        } => return Err(Fail::from("a seal came back")),
    };
    let told = share.try_tell(second, item);
    assert_eq!(rt; line_of(alloc, told)?.as_str(), "0 Opened { depth: 1 }");
    let asked = share.try_ask(second, Query::Counts);
    assert_eq!(rt;
        line_of(alloc, asked)?.as_str(),
        "1 Reply(Counts(CountRow { accepted: 1, refused: 0, skipped: 0, queries: 0, seals: 0 }))"
    );
    assert_eq!(rt; share.front(first), 2);
    Ok(())
}

fn busy_in(
    rt: &(impl Abort + Wait + AllocGlobal),
    share: &Share,
    first: &mut Seat,
) -> Result<(), Fail>
    requires { IsSeatOf share.now first.old }
{
    let item = begin(rt.alloc(), 1, 0).ok_or("no item")?;
    let mut second = share.enrol(rt, first)?;
    assert_eq!(rt; second.number(), 1);
    one_try_while_another_has_the_turn(rt, share, first, &mut second, item)
}

#[test]
fn a_turn_that_another_seat_has_is_busy(rt: HostRuntime) -> Result<(), Fail> {
    let (share, mut first) = Share::start(rt.alloc(), 100, false)?;
    busy_in(&rt, &share, &mut first)
}

// Tells a share of limit 1 two items, the second with one try, and asks it.
fn tell_past_the_limit(
    rt: &(impl Abort + Wait + AllocGlobal),
    share: &Share,
    seat: &mut Seat,
) -> Result<(), Fail>
    requires { IsSeatOf share.now seat.old }
    ensures { IsSeatOf share.now seat.new }
{
    let alloc = rt.alloc();
    let made = share.reserve(rt, seat, 2);
    assert!(rt; made.is_ok(), "out of memory");
    assert_eq!(rt; share.front(seat), 0);
    let first = begin(alloc, 1, 0).ok_or("no item")?;
    let second = begin(alloc, 1, 1).ok_or("no item")?;
    let told = share.tell(rt, seat, first);
    assert_eq!(rt; line_of(alloc, told)?.as_str(), "0 Opened { depth: 1 }");
    let told = share.try_tell(seat, second);
    assert_eq!(rt; line_of(alloc, told)?.as_str(), "32 Full: event at 1");
    let asked = share.ask(rt, seat, Query::Counts);
    assert_eq!(rt; line_of(alloc, asked)?.as_str(), "32 Full: Counts");
    assert_eq!(rt; share.front(seat), 1);
    Ok(())
}

#[test]
fn a_share_of_one_entry(rt: HostRuntime) -> Result<(), Fail> {
    let (share, mut seat) = Share::start(rt.alloc(), 1, false)?;
    let checked = tell_past_the_limit(&rt, &share, &mut seat);
    let (ledger, seat) = share.close(&rt, seat);
    assert_eq!(rt; ledger.len(), 1);
    assert_eq!(rt; seat.number(), 0);
    checked
}

#[test]
fn a_share_of_no_entry(rt: HostRuntime) -> Result<(), Fail> {
    let item = begin(rt.alloc(), 1, 0).ok_or("no item")?;
    let (share, mut seat) = Share::start(rt.alloc(), 0, false)?;
    let told = share.tell(&rt, &mut seat, item);
    assert_eq!(rt; line_of(rt.alloc(), told)?.as_str(), "32 Full: event at 0");
    Ok(())
}

// Enrols until every number is given.
fn enrol_all(
    rt: &(impl Abort + Wait + AllocGlobal),
    share: &Share,
    seat: &mut Seat,
) -> Result<(), Fail>
    requires { IsSeatOf share.now seat.old }
    ensures { IsSeatOf share.now seat.new }
{
    for number in 1..65_536 {
        assert_eq!(rt; share.enrol(rt, seat)?.number(), number);
    }
    let Err(full) = share.enrol(rt, seat) else {
        return Err(Fail::from("a number too many"));
    };
    assert_eq!(rt; full.code(), 34);
    Ok(())
}

fn tell_after_all_are_enrolled(
    rt: &(impl Abort + Wait + AllocGlobal),
    share: &Share,
    seat: &mut Seat,
) -> Result<(), Fail>
    requires { IsSeatOf share.now seat.old }
{
    let item = begin(rt.alloc(), 1, 0).ok_or("no item")?;
    enrol_all(rt, share, seat)?;
    let told = share.tell(rt, seat, item);
    assert_eq!(rt;
        line_of(rt.alloc(), told)?.as_str(),
        "0 Opened { depth: 1 }"
    );
    Ok(())
}

#[test]
fn callers_are_limited(rt: HostRuntime) -> Result<(), Fail> {
    let (share, mut seat) = Share::start(rt.alloc(), 100, false)?;
    tell_after_all_are_enrolled(&rt, &share, &mut seat)
}
