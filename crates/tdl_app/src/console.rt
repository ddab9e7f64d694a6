use tdl_io::{Failed, Sink, Source, Talk};

// The input and the output of a run in one.
#[derive(Drop)]
pub(crate) struct Console<'input, 'out, S, K> {
    pub input: &'input mut S,
    pub out: &'out mut K,
}

impl<S: Source, K: Sink> Source for Console<'_, '_, S, K> {
    ghost use Rattle.tdl_app.specs.inside.Consoles.{KeepsOut};

    ghost left = { λ c. S.left c.input.now };

    ghost faults = { λ c. S.faults c.input.now };

    ghost gave = { λ c bytes d. S.gave c.input.now bytes d.input.now × KeepsOut c d };

    ghost lost = { λ c d. S.lost c.input.now d.input.now × KeepsOut c d };

    fn pull(&mut self, into: &mut [u8]) -> Result<usize, Failed> {
        self.input.pull(into)
    }
}

impl<S: Source, K: Sink> Sink for Console<'_, '_, S, K> {
    ghost use Rattle.tdl_app.specs.inside.Consoles.{KeepsInput};

    ghost held = { λ c. K.held c.out.now };

    ghost faults = { λ c. K.faults c.out.now };

    ghost took = { λ c piece d. K.took c.out.now piece d.out.now × KeepsInput c d };

    ghost broke = { λ c piece d. K.broke c.out.now piece d.out.now × KeepsInput c d };

    fn put(&mut self, piece: &[u8]) -> Result<(), Failed> {
        self.out.put(piece)
    }
}

impl<S: Source, K: Sink> Talk for Console<'_, '_, S, K> {
    ghost use Rattle.std.proofs.Common.{ap};

    ghost apart = { record {
      gave_keeps = λ c bytes d h. record { told_is = ap K.held h.1.out; faults_are = ap K.faults h.1.out };
      lost_keeps = λ c d h. record { told_is = ap K.held h.1.out; faults_are = ap K.faults h.1.out };
      took_keeps = λ c piece d h. record { told_is = ap S.left h.1.input; faults_are = ap S.faults h.1.input };
      broke_keeps = λ c piece d h. record { told_is = ap S.left h.1.input; faults_are = ap S.faults h.1.input };
    } };
}
