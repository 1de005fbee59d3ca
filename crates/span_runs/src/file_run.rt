//! A file that is a run of its own.
ghost use Rattle.std.specs.Prelude.{◌≡◌, ◌∷◌, [], drop, length, IfErr, IfOk};
ghost use Rattle.span_runs.specs.{IsNotCollected, status_of, SealedAccount, Apart.{IsFileRun, IsShorter}, Stops.{OfStop, StopsAt, cut_lines}};

use crate::files::read_input;
use crate::source::{Name, Source};
use crate::stop::{Halt, Stop};
use span_collect::{
    Collected, Input, RunError, Settings, collect_to_ledger, fault_line_of, fault_lines,
};
use span_event::Text;
use std::alloc::{AllocError, Global};
use std::random::RandomSource;
use std::slice::from_ref;
use std::sync::Wait;
use std::thread::Threads;

/// A file, what was collected of it alone, and what the column of files has of it.
#[derive(Drop)]
pub struct FileRun {
    pub file: Input,
    pub collected: Collected,
    pub label: Text,
}

impl FileRun {
    /// The same, where the column of files leaves out so many bytes of the name.
    pub fn shorter(self, alloc: Global, cut: usize) -> Result<FileRun, AllocError>
        ensures { IfOk result (IsShorter cut self) }
    {
        let FileRun {
            file,
            collected,
            ..
        } = self;
        let label = label_of(alloc, &file.name, cut)?;
        Ok(FileRun {
            file,
            collected,
            label,
        })
    }
}

fn label_of(alloc: Global, name: &Text, cut: usize) -> Result<Text, AllocError>
    ensures { IfOk result (λ label. label ≡ drop cut name.now) }
{
    // What is left out is a folder with which the name begins, so this can't fail.
    match name.as_str().split_at_checked(cut) {
        Some((_, label)) => Text::of(alloc, label),
        None => Err(AllocError),
    }
}

/// Reads the file of this name, and collects it as a run of its own. One that ends with 2 is a fault.
pub fn collect_file<S: Source, R: Threads + Wait + RandomSource + Sync>(
    rt: &R,
    alloc: Global,
    source: &S,
    name: &Name,
    settings: &Settings,
) -> Result<FileRun, Halt>
    ensures collected { IfOk result (IsFileRun (S.bytes source.now) name.now settings.now) }
    ensures stop { IfErr result (OfStop (StopsAt (S.bytes source.now) settings.now name.now)) }
{
    let file = match read_input(alloc, source, name, settings) {
        Ok(file) => file,
        Err(halt) => return Err(halt),
    };
    let collected = match collect_alone(rt, alloc, &file, settings) {
        Ok(collected) => collected,
        Err(RunError::Memory) => return Err(Halt::Memory),
        Err(error) => return Err(Halt::of_run(alloc, error.code())),
    };
    if collected.end.status == 2 {
        return Err(cut_of(alloc, &file, &collected));
    }
    let Ok(label) = file.name.try_clone(alloc) else {
        return Err(Halt::Memory);
    };
    Ok(FileRun {
        file,
        collected,
        label,
    })
}

fn collect_alone<R: Threads + Wait + RandomSource + Sync>(
    rt: &R,
    alloc: Global,
    file: &Input,
    settings: &Settings,
) -> Result<Collected, RunError>
    ensures account { IfOk result (λ collected.
        SealedAccount (file.now ∷ []) [] settings.now collected.end.ends.items collected.end.asked
        collected.end.sealing collected.ledger.journal) }
    ensures status { IfOk result (λ collected. collected.end.status
        ≡ status_of collected.end.ends.items collected.end.asked collected.end.sealing) }
    ensures one { IfOk result (λ collected. length collected.end.ends.items ≡ 1) }
    ensures refused { IfErr result (λ error. IsNotCollected error (file.now ∷ []) [] settings.now) }
{
    match collect_to_ledger(rt, alloc, from_ref(file), &[], settings) {
        Ok(collected) => Ok(collected),
        Err(error) => Err(error),
    }
}

// Why a run ended with 2: the line of its file, and that of a seal that was not taken.
fn cut_of(alloc: Global, file: &Input, collected: &Collected) -> Halt
    requires { length collected.now.end.ends.items ≡ 1 }
    ensures { OfStop (λ lines. lines
        ≡ cut_lines file.now collected.now.end.ends.items collected.now.end.sealing) result }
{
    match cut_lines(alloc, file, collected) {
        Ok(lines) => Halt::Stopped(Stop {
            lines,
            hints: Vec::new(alloc),
        }),
        Err(_) => Halt::Memory,
    }
}

fn cut_lines(alloc: Global, file: &Input, collected: &Collected) -> Result<Vec<u8>, AllocError>
    requires { length collected.now.end.ends.items ≡ 1 }
    ensures { IfOk result (λ lines. lines.items
        ≡ cut_lines file.now collected.now.end.ends.items collected.now.end.sealing) }
{
    let mut lines = fault_lines(alloc, from_ref(file), &collected.end.ends)?;
    if let Some(cause) = collected.end.sealing.cause {
        let line = fault_line_of(alloc, &file.name, cause.code())?;
        lines.push_str(line.as_str())?;
    }
    Ok(lines.into_bytes())
}
