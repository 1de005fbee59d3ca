//! How far times lie apart.
ghost use Rattle.std.specs.Prelude.{◌≡◌};
ghost use Rattle.span_event.specs.Time.{distance};

/// The ticks from one time to another; none where that is earlier.
pub fn distance(from: i64, until: i64) -> u64
    ensures { result ≡ distance from until }
{
    if until > from {
        until.abs_diff(from)
    } else {
        0
    }
}
