//! A counter event, told to the track of counters.
ghost use Rattle.std.specs.Prelude.{◌≡◌};
ghost use Rattle.span_ledger.specs.{Counter, IsGood, CounterStandsFor, HasCounterRoom, counter_answer, Telling.Tells};

use crate::answer_pair::{AnswerPair, twice};
use span_event::Event;
use span_journal::Answer;
use span_keyed_tracks::{CounterTrack, TrackFault};

pub(crate) fn tell_counter(
    track: &mut CounterTrack,
    event: &Event,
) -> Result<AnswerPair, TrackFault>
    requires good { IsGood event.now }
    requires phase { event.now.phase ≡ Counter }
    requires room { HasCounterRoom track.old }
    ensures { Tells CounterStandsFor counter_answer track.old event.now result track.new }
{
    track.sample(event)?;
    Ok(twice!(Answer::Counted))
}
