ghost use Rattle.std.specs.Prelude.{◌≡◌, ℕ, ◌<◌, ◌≤◌, List, [], ◌∷◌, length, take, Bool, Option, IfOk, OnOk, OnErr, IfSome, IfNone, IsNone, IsTrue};
ghost use Rattle.tdl_io.specs.Faults.{HasCause};
ghost use Rattle.tdl_io.specs.Talk.{TalkLaws};
ghost use Rattle.tdl_io.specs.Told.{GainedExactly, GainedPrefix, GaveExactly, AsBeforeOrUntold};

/// A call on a device failed.
#[derive(Clone, Copy, Debug, PartialEq, Eq)]
pub struct Failed;

/// Where bytes come from.
pub trait Source {
    /// The bytes that are left, where it tells them.
    ghost left: { Self → Option (List ℕ) };

    /// How many faults there were.
    ghost faults: { Self → ℕ };

    /// What its own kind knows besides of a pull: of the source before it, the bytes that it gave and the source
    /// after it.
    ghost gave: { Self → List ℕ → Self → Type 0 } = { λ _ _ _. Unit {0} };

    /// The same of a pull that failed.
    ghost lost: { Self → Self → Type 0 } = { λ _ _. Unit {0} };

    /// Takes the next bytes into the front of the buffer, and answers how many. For a buffer that
    /// is not empty, 0 is the end of input. What the rest of the buffer holds then is left open,
    /// and after a fault all of it. After a fault the source tells what it told before, or nothing.
    fn pull(&mut self, into: &mut [u8]) -> Result<usize, Failed>
        ensures fits { IfOk result (λ count. count ≤ length into.new) }
        ensures ok { IfOk result (λ count. GaveExactly (left self.old) (left self.new) (take count into.new)) }
        ensures end { IfOk result (λ count. count ≡ 0 → 0 < length into.new → IfSome (left self.old) (λ bytes. bytes ≡ [])) }
        ensures err { OnErr result (AsBeforeOrUntold (left self.old) (left self.new)) }
        ensures gave { IfOk result (λ count. gave self.old (take count into.new) self.new) }
        ensures lost { OnErr result (lost self.old self.new) }
        ensures cause { HasCause (faults self.old) (faults self.new) result };
}

/// Where bytes go.
pub trait Sink {
    /// The bytes that it holds, where it tells them.
    ghost held: { Self → Option (List ℕ) };

    /// How many faults there were.
    ghost faults: { Self → ℕ };

    /// What its own kind knows besides of a put that took the piece: of the sink before it, the piece
    /// and the sink after it.
    ghost took: { Self → List ℕ → Self → Type 0 } = { λ _ _ _. Unit {0} };

    /// The same of a put that failed.
    ghost broke: { Self → List ℕ → Self → Type 0 } = { λ _ _ _. Unit {0} };

    /// Appends the piece. After a fault the front of it was appended, which may be none or all.
    fn put(&mut self, piece: &[u8]) -> Result<(), Failed>
        ensures ok { OnOk result (GainedExactly (held self.old) (held self.new) piece.now) }
        ensures err { OnErr result (GainedPrefix (held self.old) (held self.new) piece.now) }
        ensures took { OnOk result (took self.old piece.now self.new) }
        ensures broke { OnErr result (broke self.old piece.now self.new) }
        ensures cause { HasCause (faults self.old) (faults self.new) result };
}

/// A source and a sink in one, where calls of the one leave what the other tells as it was.
pub trait Talk: Source + Sink {
    /// Pulls keep what the sink tells, and puts what the source tells.
    ghost apart: { TalkLaws Self.gave Self.lost Self.left Self.Source.faults Self.took Self.broke Self.held Self.Sink.faults };
}

/// Where packets go.
pub trait Wire {
    /// The packets that it sent, where it tells them.
    ghost sent: { Self → Option (List (List ℕ)) };

    /// How many faults there were.
    ghost faults: { Self → ℕ };

    /// Sends one packet. Whether a packet arrives is not said. After a fault the wire tells what it
    /// told before, or nothing: that no part of the packet went out is not said.
    fn send(&mut self, packet: &[u8]) -> Result<(), Failed>
        ensures ok { OnOk result (GainedExactly (sent self.old) (sent self.new) (packet.now ∷ [])) }
        ensures err { OnErr result (AsBeforeOrUntold (sent self.old) (sent self.new)) }
        ensures cause { HasCause (faults self.old) (faults self.new) result };
}

/// What gives the beats. A beat is a time in units of 1/46,080 cycle. A clock has no faults.
pub trait Clock {
    /// The last beat that was given, at first 0.
    ghost last: { Self → ℕ };

    /// The beats that are left, where it tells them.
    ghost beats: { Self → Option (List ℕ) };

    /// Whether it has answered `None`.
    ghost ended: { Self → Bool };

    /// Waits for the next beat, which is above the last. `None` is the end, and every later answer
    /// is `None` too.
    fn beat(&mut self) -> Option<u64>
        ensures rises { IfSome result (λ beat. last self.old < beat) }
        ensures given { IfSome result (λ beat. last self.new ≡ beat) }
        ensures next { IfSome result (λ beat. GaveExactly (beats self.old) (beats self.new) (beat ∷ [])) }
        ensures stays_ended { IsTrue (ended self.old) → IsNone result }
        ensures end { IfNone result (IsTrue (ended self.new)) }
        ensures none_left { IfNone result (IfSome (beats self.old) (λ left. left ≡ [])) }
        ensures same_last { IfNone result (last self.new ≡ last self.old) }
        ensures same_beats { IfNone result (beats self.new ≡ beats self.old) };
}
