//! The track of a thread, as a map keeps it.
ghost use Rattle.std.specs.Prelude.{◌≡◌, IfOk};

use span_track::ThreadTrack;
use std::alloc::{AllocError, Global};
use std::marker::Model;

// A track behind a pointer: an ordered map has room for twice as many as it keeps.
#[derive(Drop)]
pub(crate) struct KeptTrack {
    pub(super) track: Box<ThreadTrack>,
}

impl Model for KeptTrack {
    ghost use Rattle.std.specs.Prelude.{ℕ};
    ghost use Rattle.span_ledger.specs.{ThreadSpans};

    ghost Value = { ThreadSpans ℕ };

    ghost view = { λ k. k.track.value };
}

impl KeptTrack {
    pub(crate) fn new(alloc: Global, track: ThreadTrack) -> Result<KeptTrack, AllocError>
        ensures { IfOk result (λ kept. kept ≡ track) }
    {
        let track = Box::new(alloc, track)?;
        Ok(KeptTrack { track })
    }

    pub(crate) fn as_track(&self) -> &ThreadTrack
        ensures { result.now ≡ self.now }
    {
        &self.track
    }
}
