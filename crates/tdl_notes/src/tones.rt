use tdl_fraction::Frac;
use tdl_midi::Note;

/// A note that sounds from its onset up to its stop, in cycles.
#[derive(Clone, Copy, PartialEq, Eq)]
pub struct Tone {
    pub onset: Frac,
    pub stop: Frac,
    pub note: Note,
}
