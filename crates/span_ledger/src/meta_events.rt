//! A metadata event or an instant, told to their track.
ghost use Rattle.std.specs.Prelude.{◌≡◌};
ghost use Rattle.span_ledger.specs.{Meta, Instant, IsGood, MetaStandsFor, HasMetaRoom, meta_answer, Telling.Tells};

use crate::answer_pair::{AnswerPair, twice};
use span_event::Event;
use span_journal::Answer;
use span_keyed_tracks::{MetaTrack, TrackFault};

pub(crate) fn tell_meta(track: &mut MetaTrack, event: &Event) -> Result<AnswerPair, TrackFault>
    requires good { IsGood event.now }
    requires phase { event.now.phase ≡ Meta }
    ensures { Tells MetaStandsFor meta_answer track.old event.now result track.new }
{
    track.name_event(event)?;
    Ok(twice!(Answer::Named))
}

pub(crate) fn tell_instant(track: &mut MetaTrack, event: &Event) -> Result<AnswerPair, TrackFault>
    requires good { IsGood event.now }
    requires phase { event.now.phase ≡ Instant }
    requires room { HasMetaRoom track.old }
    ensures { Tells MetaStandsFor meta_answer track.old event.now result track.new }
{
    track.instant(event)?;
    Ok(twice!(Answer::Marked))
}
