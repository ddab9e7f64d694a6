use tdl_control::Map;
use tdl_fraction::Frac;

/// The onset of an event on an orbit, which is what is sent to the sound engine. The onset is the
/// start of the event's whole and the length that of its whole, in cycles; orbits count from 1.
#[derive(Drop)]
pub struct Row {
    pub onset: Frac,
    pub length: Frac,
    pub orbit: u8,
    pub controls: Map,
}
