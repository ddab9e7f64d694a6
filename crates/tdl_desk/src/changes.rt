// Changes of what is played.

/// A change of what is played. Orbits are 1 to 16.
#[derive(Clone, Copy, PartialEq, Eq, Drop)]
pub enum Change<P> {
    /// An orbit plays a pattern.
    Set { orbit: u8, pattern: P },
    /// No orbit has a pattern any more; what is muted or soloed stays so.
    Hush,
    /// An orbit is silent, or no longer.
    Mute { orbit: u8 },
    Unmute { orbit: u8 },
    /// Only soloed orbits are heard while there are any.
    Solo { orbit: u8 },
    Unsolo { orbit: u8 },
    UnmuteAll,
    UnsoloAll,
}

/// A change, and the cycle from which on it holds.
#[derive(Clone, Copy, PartialEq, Eq, Drop)]
pub struct Dated<P> {
    pub boundary: u32,
    pub change: Change<P>,
}
