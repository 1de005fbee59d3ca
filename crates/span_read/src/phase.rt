//! The letters of the phases, and which phases read which field.
ghost use Rattle.std.specs.Prelude.{◌≡◌};
ghost use Rattle.span_read.specs.Phase.{phase_of, needs_id, reads_id, reads_scope};

use span_event::Phase;

pub(crate) fn phase_of(letter: &str) -> Option<Phase>
    ensures { result ≡ phase_of letter.now }
{
    match letter {
        "B" => Some(Phase::SpanBegin),
        "E" => Some(Phase::SpanEnd),
        "X" => Some(Phase::Complete),
        "b" => Some(Phase::AsyncBegin),
        "n" => Some(Phase::AsyncPoint),
        "e" => Some(Phase::AsyncEnd),
        "s" => Some(Phase::FlowStart),
        "t" => Some(Phase::FlowStep),
        "f" => Some(Phase::FlowEnd),
        "C" => Some(Phase::Counter),
        "i" | "I" => Some(Phase::Instant),
        "M" => Some(Phase::Meta),
        _ => None,
    }
}

pub(crate) fn needs_id(phase: Phase) -> bool
    ensures { result ≡ needs_id phase }
{
    reads_scope(phase) || matches!(phase, Phase::FlowStart | Phase::FlowStep | Phase::FlowEnd)
}

pub(crate) fn reads_id(phase: Phase) -> bool
    ensures { result ≡ reads_id phase }
{
    phase == Phase::Counter || needs_id(phase)
}

pub(crate) fn reads_scope(phase: Phase) -> bool
    ensures { result ≡ reads_scope phase }
{
    matches!(
        phase,
        Phase::AsyncBegin | Phase::AsyncPoint | Phase::AsyncEnd
    )
}
