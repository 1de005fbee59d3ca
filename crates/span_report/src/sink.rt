//! Where a report goes: a sink takes bytes, and shows in contracts which.
ghost use Rattle.std.specs.Prelude.{◌<◌, ◌≤◌, [], length, take, IfOk, OnOk, OnErr};
ghost use Rattle.span_report.specs.Sink.{SinkState, TakesBytes, Fails};

/// A call on a sink failed. It took no byte.
#[derive(Clone, Copy, Debug, PartialEq, Eq)]
pub struct SinkFault;

/// An output. Contracts see the bytes that it took, where it shows them, and how many calls on it failed.
pub trait Sink {
    ghost state: { Self → SinkState };

    /// Takes the first of the bytes, at least one, and answers how many.
    fn put(&mut self, bytes: &[u8]) -> Result<usize, SinkFault>
        requires { 0 < length bytes.now }
        ensures progress { IfOk result (λ n. (0 < n) × (n ≤ length bytes.now)) }
        ensures ok { IfOk result (λ n.
            TakesBytes (state self.old) (state self.new) (take n bytes.now)) }
        ensures fault { OnErr result (Fails (state self.old) (state self.new) []) };

    /// Called once, after the last byte.
    fn finish(&mut self) -> Result<(), SinkFault>
        ensures ok { OnOk result (TakesBytes (state self.old) (state self.new) []) }
        ensures fault { OnErr result (Fails (state self.old) (state self.new) []) };
}
