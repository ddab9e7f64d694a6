// The port of a performer, who is one of many callers.
use crate::laws::ports_stay;
use crate::performing::perform;
use std::sync::Wait;
use tdl_core::Core;
use tdl_io::{Failed, Sink, Source, Talk};
use tdl_log::PortEnd;
use tdl_session::{Caller, Hall, Pass};

/// Where a performer's lines come from, and where the replies go.
#[derive(Drop)]
pub struct Port<S, K> {
    pub source: S,
    pub sink: K,
}

impl<S: Source, K: Sink> Source for Port<S, K> {
    ghost use Rattle.std.specs.Prelude.{◌≡◌};

    ghost left = { λ p. S.left p.source };

    ghost faults = { λ p. S.faults p.source };

    ghost gave = { λ p bytes q. S.gave p.source bytes q.source × (q.sink ≡ p.sink) };

    ghost lost = { λ p q. S.lost p.source q.source × (q.sink ≡ p.sink) };

    fn pull(&mut self, into: &mut [u8]) -> Result<usize, Failed> {
        self.source.pull(into)
    }
}

impl<S: Source, K: Sink> Sink for Port<S, K> {
    ghost use Rattle.std.specs.Prelude.{◌≡◌};

    ghost held = { λ p. K.held p.sink };

    ghost faults = { λ p. K.faults p.sink };

    ghost took = { λ p piece q. K.took p.sink piece q.sink × (q.source ≡ p.source) };

    ghost broke = { λ p piece q. K.broke p.sink piece q.sink × (q.source ≡ p.source) };

    fn put(&mut self, piece: &[u8]) -> Result<(), Failed> {
        self.sink.put(piece)
    }
}

impl<S: Source, K: Sink> Talk for Port<S, K> {
    ghost use Rattle.std.proofs.Common.{ap};

    ghost apart = { record {
      gave_keeps = λ p bytes q h. record { told_is = ap K.held h.1; faults_are = ap K.faults h.1 };
      lost_keeps = λ p q h. record { told_is = ap K.held h.1; faults_are = ap K.faults h.1 };
      took_keeps = λ p piece q h. record { told_is = ap S.left h.1; faults_are = ap S.faults h.1 };
      broke_keeps = λ p piece q h. record { told_is = ap S.left h.1; faults_are = ap S.faults h.1 };
    } };
}

impl<S: Source, K: Sink> Caller<Core> for Port<S, K> {
    ghost use Rattle.tdl_answer.specs.Account.{account};
    ghost use Rattle.tdl_perform.specs.Port.{ServesPort};

    type End = PortEnd;

    ghost did = { λ tempo number history old new end. ServesPort tempo number history (account S.left S.faults old.source new.source)
        (account K.held K.faults old.sink new.sink) end };

    fn did_law() {
        ports_stay();
    }

    fn make_calls<R: Wait>(&mut self, rt: &R, hall: &Hall<Core>, pass: &mut Pass<Core>) -> PortEnd {
        perform(rt, hall.alloc, &hall.shared, pass, self)
    }
}
