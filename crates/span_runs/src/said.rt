//! What is said of files behind the text of their runs.
ghost use Rattle.std.specs.Prelude.{◌≡◌, ◌∷◌, [], length, IfOk};
ghost use Rattle.span_runs.specs.{end_lines, warnings_of, Said.IsBehind};

use crate::file_run::FileRun;
use span_collect::fault_lines;
use span_collect::refusals::{Warning, warnings_of};
use std::alloc::{AllocError, Global};
use std::slice::from_ref;

/// What is said of files, in their order: the fault lines of those that are no trace, and of which others events were refused.
#[derive(Drop)]
pub struct Said {
    pub lines: Vec<u8>,
    pub warnings: Vec<Warning>,
}

impl Said {
    pub fn nothing(alloc: Global) -> Said
        ensures lines { result.lines.items ≡ [] }
        ensures warnings { result.warnings.items ≡ [] }
    {
        Said {
            lines: Vec::new(alloc),
            warnings: Vec::new(alloc),
        }
    }

    /// What is said of a file, which was read or refused.
    pub(crate) fn of_run(alloc: Global, run: &FileRun) -> Result<Said, AllocError>
        requires { length run.now.collected.end.ends.items ≡ 1 }
        ensures lines { IfOk result (λ said. said.lines.items
            ≡ end_lines (run.now.file ∷ []) run.now.collected.end.ends.items) }
        ensures warnings { IfOk result (λ said. said.warnings.items
            ≡ warnings_of (run.now.file ∷ []) run.now.collected.end.ends.items run.now.collected.ledger.journal) }
    {
        let (file, collected) = (from_ref(&run.file), &run.collected);
        let lines = fault_lines(alloc, file, &collected.end.ends)?;
        Ok(Said {
            lines: lines.into_bytes(),
            warnings: warnings_of(alloc, &collected.ledger, file, &collected.end.ends)?,
        })
    }

    /// With what is said of others behind it.
    pub fn with(self, others: Said) -> Result<Said, AllocError>
        ensures { IfOk result (IsBehind self others) }
    {
        let (mut lines, mut warnings) = (self.lines, self.warnings);
        let (more_lines, mut more_warnings) = (others.lines, others.warnings);
        lines.extend_from_slice(&more_lines)?;
        warnings.append(&mut more_warnings)?;
        Ok(Said { lines, warnings })
    }
}
