//! The format of the files of a run.
ghost use Rattle.std.specs.Prelude.{◌≡◌};

use span_event::Unit;

/// How files are read: the unit of their times, and how large one may be.
#[derive(Clone, Copy, Debug, PartialEq, Eq)]
pub struct Format {
    /// The unit of all times and lengths.
    pub unit: Unit,
    /// How many bytes a file may have.
    pub most_bytes: u32,
    /// How many elements a trace may have.
    pub most_elements: u32,
}

impl Format {
    ghost use Rattle.span_read.specs.Document.{format_of, large_format};

    /// The format with the bounds that hold if nothing else is said: 67,108,864 bytes and 4,194,304 elements.
    pub const fn of(unit: Unit) -> Format
        ensures { result ≡ format_of unit }
    {
        Format {
            unit,
            most_bytes: 67_108_864,
            most_elements: 4_194_304,
        }
    }

    /// The format of large files: 4,294,967,295 bytes, and as many elements.
    pub const fn large(unit: Unit) -> Format
        ensures { result ≡ large_format unit }
    {
        Format {
            unit,
            most_bytes: u32::MAX,
            most_elements: u32::MAX,
        }
    }
}
