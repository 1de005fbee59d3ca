//! Why an event is not taken.
/// Why a track did not take an event. It then stands for the same events as before.
#[derive(Clone, Copy, Debug, PartialEq, Eq)]
pub enum TrackFault {
    /// The event is refused, with the number of a `Fault`.
    Refused(u16),
    /// Memory was refused.
    Memory,
}
