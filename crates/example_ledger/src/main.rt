//! Tells a ledger what the lines of standard input say, and prints what it answers and what it then holds.
#![tactic(auto)]

mod lines;
mod queries;
mod session;
mod shown;

use lines::Fault;
use session::Session;
use std::io::Read;
use std::process::ExitCode;

// A fault is that of the line with this number.
fn perform_all(rt: &HostRuntime, session: &mut Session, text: &str) -> Result<(), (usize, Fault)> {
    for (index, line) in text.lines().enumerate() {
        if let Err(fault) = session.perform(rt, line) {
            return Err((index, fault));
        }
    }
    Ok(())
}

fn run(rt: &HostRuntime, text: &str) -> Result<(), (usize, Fault)> {
    let mut session = Session::new(rt.alloc());
    let done = perform_all(rt, &mut session, text);
    drop(session);
    done
}

// Nothing can be done where standard error fails.
fn fail(rt: &HostRuntime, index: usize, fault: Fault) -> ExitCode {
    let number = index.saturating_add(1);
    let _ = eprintln!(rt; "example_ledger: line {number}: {fault}");
    match fault {
        Fault::Line(_) => ExitCode::from(2),
        Fault::Memory => ExitCode::from(3),
        Fault::Stream(_) => ExitCode::from(4),
    }
}

fn main(rt: HostRuntime) -> ExitCode {
    let mut text = String::new(rt.alloc());
    if let Err(error) = rt.stdin().read_to_string(&mut text) {
        return fail(&rt, 0, Fault::from(error));
    }
    match run(&rt, text.as_str()) {
        Ok(()) => ExitCode::SUCCESS,
        Err((index, fault)) => fail(&rt, index, fault),
    }
}
