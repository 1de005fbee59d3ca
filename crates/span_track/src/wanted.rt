//! Which spans an end may close, where names are strict.
ghost use Rattle.std.specs.Prelude.{◌≡◌};
ghost use Rattle.span_track.specs.Thread.{suits};

/// The name that an end wants of the span that it closes.
#[derive(Clone, Copy, Debug, PartialEq, Eq)]
pub enum Wanted {
    /// Any name.
    Any,
    /// The name with this number.
    Name(u32),
    /// A name without a number, which is that of no span.
    NoName,
}

impl Wanted {
    /// Whether an end that wants this closes a span whose name has this number.
    pub fn suits(self, name: u32) -> bool
        ensures { result ≡ suits self name }
    {
        match self {
            Wanted::Any => true,
            Wanted::Name(wanted) => name == wanted,
            Wanted::NoName => false,
        }
    }
}
