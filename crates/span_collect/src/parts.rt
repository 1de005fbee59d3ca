//! In how many parts a file is read, side by side.
use crate::files::Input;
use crate::reading_places::PLACES;
use std::thread;
use std::thread::Threads;

/// A file of so many bytes is large. Of a smaller one threads save less time than it takes to start them.
const LARGE: usize = 4_194_304;

const MOST_PARTS: usize = 64;

/// In how many parts the large ones among these files are read, where nothing else is collected beside them. The system is asked for its
/// processors only where there is a large one.
pub(crate) fn parts_of<R: Threads>(rt: &R, files: &[Input]) -> u32 {
    if !files.iter().any(is_large) {
        return 1;
    }
    let Ok(processors) = thread::available_parallelism(rt) else {
        return 1;
    };
    // They are divided among the files that are read at once.
    let at_once = files.len().clamp(1, PLACES);
    (processors.get() / at_once).clamp(1, MOST_PARTS) as u32
}

/// In how many parts this file is read, where large ones are read in so many.
pub(crate) fn parts_for(parts: u32, file: &Input) -> u32 {
    if is_large(file) { parts } else { 1 }
}

fn is_large(file: &Input) -> bool {
    file.bytes.len() >= LARGE
}
