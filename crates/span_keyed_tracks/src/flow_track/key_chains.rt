//! The flow chains of one key.
ghost use Rattle.std.specs.Prelude.{◌≡◌, ◌≤ℤ◌, [], Some, IfOk, OnOk, OnErr};
ghost use Rattle.span_keyed_tracks.specs.{IsTime, Fault.{Answers, TakesNoMemory}, Flow.{HasPointRoom, flow_chains, flow_closed, flow_point_refusal, flow_start_refusal, flow_totals}, FlowKept.{with_finish, with_start, with_step}};

use super::{FlowClosed, FlowTotals};
use crate::fault::TrackFault;
use span_event::Fault;
use std::marker::Model;

// A chain that no finish has ended.
#[derive(Clone, Copy)]
struct Chain {
    start: i64,
    last: i64,
    points: u32,
}

impl Model for Chain {
    ghost use Rattle.span_keyed_tracks.specs.Flow.{OpenChain};

    ghost Value = { OpenChain };

    ghost view = { λ chain. record { start = chain.start; last = chain.last; points = chain.points } };

    ghost inverse = { λ chain. record { start = chain.start; last = chain.last; points = chain.points } };
}

#[derive(Drop)]
pub(crate) struct KeyChains {
    ended: u32,
    total: u128,
    unclosed: Option<Chain>,
}

impl Model for KeyChains {
    ghost use Rattle.span_keyed_tracks.specs.{Flow.FlowChains, FlowKept.AreBounded};

    ghost Value = { FlowChains };

    ghost view = { λ c. record { ended = c.ended; total = c.total; unclosed = c.unclosed } };

    ghost invariant = { λ c. AreBounded (record { ended = c.ended; total = c.total; unclosed = c.unclosed }) };
}

impl KeyChains {
    pub(crate) fn new() -> KeyChains
        ensures { result ≡ flow_chains [] }
    {
        KeyChains {
            ended: 0,
            total: 0,
            unclosed: None,
        }
    }

    pub(crate) fn start(&mut self, ts: i64) -> Result<(), TrackFault>
        requires room { HasPointRoom self.old }
        requires in_time { IsTime ts }
        ensures refusal { Answers result (flow_start_refusal self.old) }
        ensures ok { OnOk result (self.new ≡ with_start self.old ts) }
        ensures err { OnErr result (self.new ≡ self.old) }
    {
        if self.unclosed.is_some() {
            return Err(TrackFault::Refused(Fault::FlowOpen.code()));
        }
        self.unclosed = Some(Chain {
            start: ts,
            last: ts,
            points: 1,
        });
        Ok(())
    }

    // The unclosed chain, where a point at `ts` can follow its last.
    fn chain_until(&self, ts: i64) -> Result<Chain, TrackFault>
        requires in_time { IsTime ts }
        ensures refusal { Answers result (flow_point_refusal self.now ts) }
        ensures chain { IfOk result (λ chain. self.now.unclosed ≡ Some chain) }
        ensures later { IfOk result (λ chain. chain.last ≤ℤ ts) }
        ensures memory { TakesNoMemory result }
    {
        let Some(chain) = self.unclosed else {
            return Err(TrackFault::Refused(Fault::NoFlow.code()));
        };
        if ts < chain.last {
            return Err(TrackFault::Refused(Fault::TimeGoesBack.code()));
        }
        Ok(chain)
    }

    pub(crate) fn step(&mut self, ts: i64) -> Result<(), TrackFault>
        requires room { HasPointRoom self.old }
        requires in_time { IsTime ts }
        ensures refusal { Answers result (flow_point_refusal self.old ts) }
        ensures ok { OnOk result (self.new ≡ with_step self.old ts) }
        ensures err { OnErr result (self.new ≡ self.old) }
        ensures memory { TakesNoMemory result }
    {
        let chain = self.chain_until(ts)?;
        self.unclosed = Some(Chain {
            start: chain.start,
            last: ts,
            points: chain.points + 1,
        });
        Ok(())
    }

    pub(crate) fn end(&mut self, ts: i64) -> Result<FlowClosed, TrackFault>
        requires room { HasPointRoom self.old }
        requires in_time { IsTime ts }
        ensures refusal { Answers result (flow_point_refusal self.old ts) }
        ensures closed { IfOk result (λ closed. flow_closed self.old ts ≡ Some closed) }
        ensures ok { OnOk result (self.new ≡ with_finish self.old ts) }
        ensures err { OnErr result (self.new ≡ self.old) }
        ensures memory { TakesNoMemory result }
    {
        let chain = self.chain_until(ts)?;
        let points = chain.points + 1;
        let length = ts.abs_diff(chain.start);
        self.ended += 1;
        self.total += u128::from(length);
        self.unclosed = None;
        Ok(FlowClosed { points, length })
    }

    pub(crate) fn totals(&self) -> FlowTotals
        ensures { result ≡ flow_totals self.now }
    {
        let unclosed = match self.unclosed {
            Some(chain) => chain.points,
            None => 0,
        };
        FlowTotals {
            ended: self.ended,
            total: self.total,
            unclosed,
        }
    }
}
