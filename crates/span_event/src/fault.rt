//! The faults, each with its number and its word.
ghost use Rattle.std.specs.Prelude.{◌≡◌};
ghost use Rattle.span_event.specs.Fault.{fault_of, number_of, word_of};

/// What can be wrong: with a file, with one of its items, with an event for its track, with a call, with a run or with its output.
#[derive(Clone, Copy, Debug, PartialEq, Eq)]
pub enum Fault {
    /// 1: a file is not JSON.
    NotJson = 1,
    /// 2: a file's document is not a trace.
    NotTrace = 2,
    /// 3: a file has too many bytes.
    TooLarge = 3,
    /// 4: a file has too many items.
    TooMany = 4,
    /// 11: an element of a trace is no object.
    NotObject = 11,
    /// 12: its `ph` is missing or no text.
    NoPhase = 12,
    /// 13: its `ts` is missing.
    NoTime = 13,
    /// 14: its `ts`, or the `dur` of a complete event, is no whole number of its range.
    NotWhole = 14,
    /// 15: a complete event has no `dur`.
    NoDuration = 15,
    /// 16: a field is of a wrong kind.
    BadField = 16,
    /// 17: an asynchronous or flow event has no id.
    NoId = 17,
    /// 18: the `s` of an instant is none of `g`, `p` and `t`.
    BadReach = 18,
    /// 19: a member of a counter's `args` is no whole number.
    BadSeries = 19,
    /// 21: an end or a seal on a thread without an open span (`E`, a seal).
    NoOpenSpan = 21,
    /// 22: a time below that of the thread's last begin, end or seal (`B`, `E`, a seal), or of the last point of the flow chain (`t`, `f`).
    TimeGoesBack = 22,
    /// 23: an asynchronous end, of which no begin of its key is left (`e`).
    NoOpenAsync = 23,
    /// 24: an asynchronous end before the begin that it matches (`e`).
    EndBeforeBegin = 24,
    /// 25: a flow chain starts while one of its key is unclosed (`s`).
    FlowOpen = 25,
    /// 26: a step or an end of a flow chain, of which none is unclosed (`t`, `f`).
    NoFlow = 26,
    /// 27: an end that names another span than the one it would close, where names are strict (`E`).
    NameDiffers = 27,
    /// 31: memory was refused.
    Memory = 31,
    /// 32: the ledger has as many entries as its limit allows.
    Full = 32,
    /// 33: another seat has the turn.
    Busy = 33,
    /// 34: every caller number was given.
    CallersFull = 34,
    /// 41: there is no file, or there are more than 64.
    FileCount = 41,
    /// 42: no seat or no thread was to be had for a file.
    NotStarted = 42,
    /// 43: the journal has another number of entries than the callers say that they recorded.
    Unaccounted = 43,
    /// 51: the output failed.
    Output = 51,
    /// 52: a file could not be opened or read.
    NotOpened = 52,
    /// 53: a part to be added is not, byte for byte, the text of a table.
    NotTable = 53,
    /// 54: a part to be added has other columns than the first one, or lacks one that is asked for.
    OtherColumns = 54,
    /// 55: a sum of a table that is printed for a machine has more than 64 bits.
    TooGreat = 55,
    /// 56: the folded stacks have more names than they may.
    StacksTooLarge = 56,
    /// 57: a page has more bytes than a browser opens.
    PageTooLarge = 57,
}

impl Fault {
    /// The number of the fault.
    pub const fn code(self) -> u16
        ensures { result ≡ number_of self }
    {
        self as u16
    }

    /// The word that stands beside the number.
    pub fn word(self) -> &'static str
        ensures { result.now ≡ word_of self }
    {
        match self {
            Fault::NotJson => "NotJson",
            Fault::NotTrace => "NotTrace",
            Fault::TooLarge => "TooLarge",
            Fault::TooMany => "TooMany",
            Fault::NotObject => "NotObject",
            Fault::NoPhase => "NoPhase",
            Fault::NoTime => "NoTime",
            Fault::NotWhole => "NotWhole",
            Fault::NoDuration => "NoDuration",
            Fault::BadField => "BadField",
            Fault::NoId => "NoId",
            Fault::BadReach => "BadReach",
            Fault::BadSeries => "BadSeries",
            Fault::NoOpenSpan => "NoOpenSpan",
            Fault::TimeGoesBack => "TimeGoesBack",
            Fault::NoOpenAsync => "NoOpenAsync",
            Fault::EndBeforeBegin => "EndBeforeBegin",
            Fault::FlowOpen => "FlowOpen",
            Fault::NoFlow => "NoFlow",
            Fault::NameDiffers => "NameDiffers",
            Fault::Memory => "Memory",
            Fault::Full => "Full",
            Fault::Busy => "Busy",
            Fault::CallersFull => "CallersFull",
            Fault::FileCount => "FileCount",
            Fault::NotStarted => "NotStarted",
            Fault::Unaccounted => "Unaccounted",
            Fault::Output => "Output",
            Fault::NotOpened => "NotOpened",
            Fault::NotTable => "NotTable",
            Fault::OtherColumns => "OtherColumns",
            Fault::TooGreat => "TooGreat",
            Fault::StacksTooLarge => "StacksTooLarge",
            Fault::PageTooLarge => "PageTooLarge",
        }
    }

    /// The fault that has this number, if there is one.
    #[tactic(auto, unfolding(crate::specs::Fault::fault_of))]
    pub fn of_code(code: u16) -> Option<Fault>
        ensures { result ≡ fault_of code }
    {
        let fault = match code {
            1 => Fault::NotJson,
            2 => Fault::NotTrace,
            3 => Fault::TooLarge,
            4 => Fault::TooMany,
            11 => Fault::NotObject,
            12 => Fault::NoPhase,
            13 => Fault::NoTime,
            14 => Fault::NotWhole,
            15 => Fault::NoDuration,
            16 => Fault::BadField,
            17 => Fault::NoId,
            18 => Fault::BadReach,
            19 => Fault::BadSeries,
            21 => Fault::NoOpenSpan,
            22 => Fault::TimeGoesBack,
            23 => Fault::NoOpenAsync,
            24 => Fault::EndBeforeBegin,
            25 => Fault::FlowOpen,
            26 => Fault::NoFlow,
            27 => Fault::NameDiffers,
            31 => Fault::Memory,
            32 => Fault::Full,
            33 => Fault::Busy,
            34 => Fault::CallersFull,
            41 => Fault::FileCount,
            42 => Fault::NotStarted,
            43 => Fault::Unaccounted,
            51 => Fault::Output,
            52 => Fault::NotOpened,
            53 => Fault::NotTable,
            54 => Fault::OtherColumns,
            55 => Fault::TooGreat,
            56 => Fault::StacksTooLarge,
            57 => Fault::PageTooLarge,
            _ => return None,
        };
        Some(fault)
    }
}
