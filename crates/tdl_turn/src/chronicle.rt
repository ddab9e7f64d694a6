//! What the lock asks of a value.
ghost use Rattle.std.specs.Prelude.{◌≡◌, ℕ, List, length};

/// A value that keeps a history: a list of entries, each by the number of a caller.
pub trait Chronicle {
    type Entry;

    /// What no call changes.
    type Fixed;

    ghost history: { Self → List Self.Entry };

    ghost by: { Self.Entry → ℕ };

    ghost fixed: { Self → Self.Fixed };

    /// The length of the history.
    fn entries(&self) -> u64
        ensures { result ≡ length (history self.now) };
}
