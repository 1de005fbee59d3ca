//! Where the bytes of files come from.
ghost use Rattle.std.specs.Prelude.{◌≡◌, ◌≤◌, length, option_map, vec_items, vec_len, IfErr, IfOk, Some};
ghost use Rattle.span_runs.specs.{Folders.{FailsBelow, HasBelow, SourceFolders}, Source.{AreBegun, AreFirst, SourceBytes, printed}};

use span_event::Text;
use span_faults::Reason;
use std::alloc::{AllocError, Global};

/// What is read: a file, or standard input.
#[derive(Drop)]
pub enum Name {
    Standard,
    /// The file of this name, which is a path.
    File(Text),
}

impl Name {
    /// As it is printed: standard input is `-`.
    pub fn printed(&self, alloc: Global) -> Result<Text, AllocError>
        ensures { IfOk result (λ text. text ≡ printed self.now) }
    {
        match self {
            Name::Standard => Text::of(alloc, "-"),
            Name::File(name) => name.try_clone(alloc),
        }
    }
}

/// Why a file could not be read.
#[derive(Clone, Copy)]
pub enum SourceFault {
    /// 52: the file could not be opened, or a read failed or was interrupted.
    NotOpened(Reason),
    /// 31: memory was refused.
    Memory,
}

/// Why a folder could not be looked through.
#[derive(Drop)]
pub enum FolderFault {
    /// 52: the folder of this path, which is that folder or one below it, could not be read, or has a name that is not UTF-8. Of several
    /// it is the first by the bytes of its path.
    NotRead { path: Text, reason: Reason },
    /// 31: memory was refused.
    Memory,
}

/// Standard input, files and folders. Contracts see what they hold, where it is known. Files may be read in several threads at once.
pub trait Source {
    ghost bytes: { Self → SourceBytes };

    ghost folders: { Self → SourceFolders };

    /// The regular files below the folder of this path whose names end so, by their paths below it, in the order of the bytes of these;
    /// None where it is no folder. Names that begin with a dot are left out, and so are links; but the path may be a link to a folder.
    fn files_below(&self, path: &Text, ending: &str) -> Result<Option<Vec<Text>>, FolderFault>
        ensures found { IfOk result (λ found.
            HasBelow (folders self.now ending.now path.now) (option_map vec_items found)) }
        ensures failed { IfErr result (FailsBelow (folders self.now ending.now path.now)) };

    /// The bytes that the name stands for, or the first `most` of them. Standard input is read once.
    fn read(&self, name: &Name, most: u64) -> Result<Vec<u8>, SourceFault>
        ensures first { IfOk result (λ read. AreFirst most (bytes self.now name.now) read.items) }
        ensures within { IfOk result (λ read. vec_len read ≤ most) };

    /// As `read`, but of bytes that don't begin with this one it may stop at the first.
    fn read_begun(&self, name: &Name, most: u64, first: u8) -> Result<Vec<u8>, SourceFault>
        ensures begun { IfOk result (λ read.
            AreBegun (Some first) most (bytes self.now name.now) read.items) }
        ensures within { IfOk result (λ read. vec_len read ≤ most) }
    {
        let _ = first;
        self.read(name, most)
    }

    /// How many bytes there are thought to be; 0, where that is not known. Nothing but time depends on it.
    fn size(&self, _name: &Name) -> u64 {
        0
    }

    /// Whether who reads it may have to wait for another process, as for one that writes to a pipe.
    fn may_wait(&self, _name: &Name) -> bool {
        false
    }

    /// Called once, before the first file is read, where each of so many files is a run of its own.
    fn begin_apart(&self, _files: u64) {}

    /// Called once, after the last file was read.
    fn end(&self) {}
}

/// How many jobs read these names at once: so many, but one where reading may wait, so that the first name that stops decides whatever
/// those behind it wait for.
pub fn jobs_for<S: Source>(source: &S, names: &[Name], jobs: u32) -> u32 {
    for name in names {
        if source.may_wait(name) {
            return 1;
        }
    }
    jobs
}

/// How many bytes there are thought to be under each of these names.
pub fn sizes_of<S: Source>(
    alloc: Global,
    source: &S,
    names: &[Name],
) -> Result<Vec<u64>, AllocError>
    ensures { IfOk result (λ sizes. length sizes.items ≡ length names.now) }
{
    let mut sizes = Vec::with_capacity(alloc, names.len())?;
    for name in names {
        sizes.push(source.size(name))?;
    }
    Ok(sizes)
}
