//! Looks through the folders of the system.

use crate::reading::reason_of;
use span_event::Text;
use span_runs::{FolderFault, Reason};
use std::alloc::Global;
use std::fs::{DirEntry, read_dir};
use std::io::{self, ErrorKind};

/// The regular files below this folder whose names end so, by their paths below it, in the order of the bytes of these.
pub(crate) fn files_below(
    rt: &HostRuntime,
    folder: &Text,
    ending: &str,
) -> Result<Vec<Text>, FolderFault> {
    let mut walk = Walk {
        alloc: rt.alloc(),
        ending,
        todo: Vec::new(rt.alloc()),
        files: Vec::new(rt.alloc()),
        failed: None,
    };
    walk.look_through(rt, folder, "")?;
    for _ in 0..usize::MAX {
        let Some(below) = walk.todo.pop() else {
            return walk.end();
        };
        let path = path_of(walk.alloc, folder.as_str(), below.as_str())?;
        walk.look_through(rt, &path, below.as_str())?;
    }
    // No system has so many folders.
    Err(FolderFault::Memory)
}

// What was found below a folder, and which folders below it are still to be looked through, both by their paths below it.
#[derive(Drop)]
struct Walk<'a> {
    alloc: Global,
    ending: &'a str,
    todo: Vec<Text>,
    files: Vec<Text>,
    // The first folder, by the bytes of its path, that could not be looked through.
    failed: Option<Failed>,
}

#[derive(Drop)]
struct Failed {
    path: Text,
    reason: Reason,
}

impl<'a> Walk<'a> {
    // The folder of this path, which is so below the one that is walked through.
    fn look_through(
        &mut self,
        rt: &HostRuntime,
        path: &Text,
        below: &str,
    ) -> Result<(), FolderFault> {
        let entries = match read_dir(rt, path.as_str()) {
            Ok(entries) => entries,
            Err(error) => return self.fail(path, &error),
        };
        for entry in entries {
            let taken = match entry {
                Ok(entry) => self.take(&entry, below)?,
                Err(error) => Err(error),
            };
            if let Err(error) = taken {
                return self.fail(path, &error);
            }
        }
        Ok(())
    }

    // What stands in a folder: a folder to look through, a wanted file, or something that is left out.
    fn take(&mut self, entry: &DirEntry, below: &str) -> Result<io::Result<()>, FolderFault> {
        let name = entry.file_name();
        if name.starts_with('.') {
            return Ok(Ok(()));
        }
        let kind = match entry.file_type() {
            Ok(kind) => kind,
            Err(error) => return Ok(Err(error)),
        };
        if kind.is_dir() {
            push(&mut self.todo, path_of(self.alloc, below, name)?)?;
        } else if kind.is_file() && name.ends_with(self.ending) {
            push(&mut self.files, path_of(self.alloc, below, name)?)?;
        }
        Ok(Ok(()))
    }

    // A folder could not be looked through. The first of such decides.
    fn fail(&mut self, path: &Text, error: &io::Error) -> Result<(), FolderFault> {
        let reason = match error.kind() {
            ErrorKind::OutOfMemory => return Err(FolderFault::Memory),
            ErrorKind::InvalidFilename => Reason::OddName,
            _ => reason_of(error),
        };
        let is_first = match &self.failed {
            Some(failed) => path < &failed.path,
            None => true,
        };
        if is_first {
            let path = clone_of(self.alloc, path)?;
            self.failed = Some(Failed { path, reason });
        }
        Ok(())
    }

    fn end(self) -> Result<Vec<Text>, FolderFault> {
        let Walk {
            mut files,
            failed,
            ..
        } = self;
        if let Some(Failed { path, reason }) = failed {
            return Err(FolderFault::NotRead { path, reason });
        }
        files.sort_unstable();
        Ok(files)
    }
}

// The path of what has this name, or this path, below a folder.
fn path_of(alloc: Global, folder: &str, below: &str) -> Result<Text, FolderFault> {
    let path = if folder.is_empty() || folder.ends_with('/') {
        format!(in alloc; "{folder}{below}")
    } else {
        format!(in alloc; "{folder}/{below}")
    };
    match path {
        Ok(path) => text_of(alloc, path.as_str()),
        Err(_) => Err(FolderFault::Memory),
    }
}

fn text_of(alloc: Global, text: &str) -> Result<Text, FolderFault> {
    match Text::of(alloc, text) {
        Ok(text) => Ok(text),
        Err(_) => Err(FolderFault::Memory),
    }
}

fn clone_of(alloc: Global, text: &Text) -> Result<Text, FolderFault> {
    match text.try_clone(alloc) {
        Ok(text) => Ok(text),
        Err(_) => Err(FolderFault::Memory),
    }
}

fn push(texts: &mut Vec<Text>, text: Text) -> Result<(), FolderFault> {
    match texts.push(text) {
        Ok(()) => Ok(()),
        Err(_) => Err(FolderFault::Memory),
    }
}
