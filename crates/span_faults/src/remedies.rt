//! What may help with a file, or with the files of a run.

use span_collect::fault_word;
use span_event::{Fault, Unit};
use span_journal::Answer;
use span_ledger::Ledger;
use std::alloc::{AllocError, Global};
use std::collections::BTreeMap;
use std::fmt;

/// What the system says of a file that could not be read.
#[derive(Clone, Copy)]
pub enum Reason {
    Missing,
    Denied,
    Folder,
    /// It is a list of names, and not UTF-8.
    NotText,
    /// It is a folder, and a name in it is not UTF-8.
    OddName,
    /// It is a list of names of more than 1 GiB.
    TooLong,
    /// It is standard input, and was read before.
    Taken,
    Other,
}

impl Reason {
    /// The reason in words.
    pub fn text(self) -> &'static str {
        match self {
            Reason::Missing => "there is no such file",
            Reason::Denied => "it may not be read by this user",
            Reason::Folder => "it is a folder",
            Reason::NotText => "it is not UTF-8 text",
            Reason::OddName => "a name in it is not UTF-8 text",
            Reason::TooLong => "a list of names may have 1 GiB",
            Reason::Taken => "standard input was read before, and can be read only once",
            Reason::Other => "reading it failed",
        }
    }
}

/// Said of a run of more files than may be.
pub(crate) const MANY_FILES: &str =
    "hint: at most 64 files are collected into one report; a run of some of them at a time has a report of these\n";

/// Said of a comparison of one file with several, each of which is a run of its own.
pub(crate) const ONE_BASE: &str =
    "hint: --base takes one FILE, so all others are on the other side; a folder stands for all files below it\n";

/// Said of a list without names.
pub(crate) const NO_NAMES: &str = "hint: the list names no file\n";

/// What may help with a file, or with the files of a run.
#[derive(Clone, Copy)]
pub enum Hint {
    /// The file is compressed, and this program prints what it holds.
    Compressed {
        unpacker: &'static str,
    },
    ByteOrderMark,
    Utf16,
    Empty,
    /// The file ends within an element, or within the object around them; the last whole element ends behind so many bytes.
    CutOff {
        whole: usize,
    },
    /// The file has neither an array of events nor an object with one.
    NotTrace,
    /// Nor is it JSON.
    NotJson,
    /// The file is larger, or has more elements, than a file may without an option.
    Large,
    /// The file is larger than any file may be.
    TooLarge,
    /// So many of the file's elements were refused with this number, and this may help.
    Refused {
        count: u32,
        items: u32,
        code: u16,
        remedy: &'static str,
    },
    /// It is a folder without a file whose name ends so.
    NoFiles {
        ending: &'static str,
    },
    /// The file could not be read, for this reason.
    Unreadable(Reason),
}

/// What the bytes of a text that is not JSON look like.
pub(crate) fn hint_of_bytes(bytes: &[u8]) -> Hint {
    if let Some(unpacker) = unpacker_of(bytes) {
        return Hint::Compressed { unpacker };
    }
    if bytes.starts_with(b"\xef\xbb\xbf") {
        return Hint::ByteOrderMark;
    }
    if bytes.starts_with(b"\xff\xfe") || bytes.starts_with(b"\xfe\xff") {
        return Hint::Utf16;
    }
    if bytes.iter().all(|byte| is_blank(*byte)) {
        return Hint::Empty;
    }
    match Brackets::new().cut_of(bytes) {
        Some(cut) => cut,
        None => Hint::NotJson,
    }
}

// The program that prints what a compressed file holds.
fn unpacker_of(bytes: &[u8]) -> Option<&'static str> {
    if bytes.starts_with(b"\x1f\x8b") {
        Some("zcat")
    } else if bytes.starts_with(b"\xfd7zXZ\x00") {
        Some("xzcat")
    } else if bytes.starts_with(b"\x28\xb5\x2f\xfd") {
        Some("zstdcat")
    } else {
        None
    }
}

fn is_blank(byte: u8) -> bool {
    matches!(byte, b' ' | b'\t' | b'\r' | b'\n')
}

// Where a text stands by its brackets and quotes alone.
#[derive(Clone, Copy)]
struct Brackets {
    // How many brackets are open, and behind how many of them elements stand; 0, before the first bracket.
    depth: usize,
    base: usize,
    is_in_string: bool,
    is_escaped: bool,
    // Behind how many bytes the last whole element ends.
    whole: usize,
}

impl Brackets {
    fn new() -> Brackets {
        Brackets {
            depth: 0,
            base: 0,
            is_in_string: false,
            is_escaped: false,
            whole: 0,
        }
    }

    // Whether the text ends within an element, or within the object around them. An array may lack its own bracket.
    fn cut_of(mut self, bytes: &[u8]) -> Option<Hint> {
        for (place, byte) in bytes.iter().enumerate() {
            self.take(*byte, place);
        }
        let may_be_open = if self.base == 1 { 1 } else { 0 };
        if self.depth > may_be_open || self.is_in_string {
            Some(Hint::CutOff { whole: self.whole })
        } else {
            None
        }
    }

    fn take(&mut self, byte: u8, place: usize) {
        if self.is_escaped {
            self.is_escaped = false;
        } else if self.is_in_string {
            self.is_escaped = byte == b'\\';
            self.is_in_string = byte != b'"';
        } else {
            self.take_outside(byte, place);
        }
    }

    // A byte that is in no string.
    fn take_outside(&mut self, byte: u8, place: usize) {
        match byte {
            b'"' => self.is_in_string = true,
            b'[' | b'{' => {
                if self.base == 0 {
                    self.base = if byte == b'[' { 1 } else { 2 };
                }
                self.depth = self.depth.saturating_add(1);
            }
            b']' | b'}' => {
                self.depth = self.depth.saturating_sub(1);
                if self.depth == self.base {
                    self.whole = place.saturating_add(1);
                }
            }
            _ => {}
        }
    }
}

/// How many items of each caller each number refused, in a run in this unit.
#[derive(Drop)]
pub(crate) struct RefusalCounts {
    counts: BTreeMap<(u32, u16), u32>,
    unit: Unit,
}

impl RefusalCounts {
    pub(crate) fn of(
        alloc: Global,
        ledger: &Ledger,
        unit: Unit,
    ) -> Result<RefusalCounts, AllocError> {
        let mut counts = BTreeMap::new(alloc);
        for position in 0..ledger.len() {
            if let Some(entry) = ledger.entry(position) {
                if let Answer::Refused(code) = entry.answer {
                    let key = (entry.caller, code);
                    let count = counts.get(&key).copied().unwrap_or(0u32);
                    counts.insert(key, count.saturating_add(1))?;
                }
            }
        }
        Ok(RefusalCounts { counts, unit })
    }

    /// Those of a caller's items whose times may have fractions, if there are any.
    pub(crate) fn fractions_of(&self, caller: u32, items: u32) -> Option<Hint> {
        let code = Fault::NotWhole.code();
        match self.counts.get(&(caller, code)) {
            Some(count) if self.may_be_fractions(code) => Some(Hint::Refused {
                count: *count,
                items,
                code,
                remedy: "--nanoseconds reads times with fractions",
            }),
            _ => None,
        }
    }

    /// The number that refused more than half of a caller's items, if there is one; but for what `fractions_of` gives.
    pub(crate) fn most_of(&self, caller: u32, items: u32) -> Option<Hint> {
        for (key, count) in &self.counts {
            if key.0 == caller && *count > items / 2 && !self.may_be_fractions(key.1) {
                return Some(Hint::Refused {
                    count: *count,
                    items,
                    code: key.1,
                    remedy: remedy_of(key.1),
                });
            }
        }
        None
    }

    // Nanoseconds refuse no fraction.
    fn may_be_fractions(&self, code: u16) -> bool {
        self.unit == Unit::Microseconds && code == Fault::NotWhole.code()
    }
}

// What a trace is, for a file that is none.
const TRACE: &str = r#"a trace is an array of events, or an object that has one as "traceEvents""#;

// What helps where most elements are refused with this number.
fn remedy_of(code: u16) -> &'static str {
    match code {
        16 => "tracebook_convert gives numbers to processes and threads that are strings",
        19 => "tracebook_convert makes the values of counters whole numbers",
        21 | 22 | 23 | 24 | 26 => "events count in the order in which they stand",
        27 => "without --strict an end closes its span whatever its name",
        _ => "--refused says which is the first",
    }
}

impl fmt::Display for Hint {
    fn fmt<W: fmt::Write>(&self, f: &mut fmt::Formatter<W>) -> fmt::Result {
        match self {
            Hint::Compressed { unpacker } => {
                write!(f, "it is compressed: {unpacker} FILE | tracebook")
            }
            Hint::ByteOrderMark => f.write_str(
                "it begins with a byte order mark: tail -c +4 FILE | tracebook",
            ),
            Hint::Utf16 => f.write_str("it is UTF-16: iconv -f UTF-16 -t UTF-8 FILE | tracebook"),
            Hint::Empty => f.write_str("it is empty"),
            Hint::CutOff { whole } => write!(
                f,
                "it is cut off behind byte {whole}: tracebook_convert --cut keeps the whole elements before that"
            ),
            Hint::NotTrace => write!(f, "it has no events: {TRACE}"),
            Hint::NotJson => write!(f, "it is not JSON: {TRACE}"),
            Hint::Large => f.write_str(
                "with --large a file may have 4 GiB, and any number of elements",
            ),
            Hint::TooLarge => f.write_str("a file may have 4 GiB: tracebook_split splits it"),
            Hint::Refused {
                count,
                items,
                code,
                remedy,
            } => {
                let word = fault_word(*code).unwrap_or("");
                write!(
                    f,
                    "{count} of {items} elements are refused, {code} {word}: {remedy}"
                )
            }
            Hint::NoFiles { ending } => {
                write!(f, "no file below it has a name that ends in {ending}")
            }
            Hint::Unreadable(reason) => f.write_str(reason.text()),
        }
    }
}
