// What a log is the text of.
use crate::ends::Ends;
use tdl_score::History;
use tdl_tempo::Tempo;

/// What a run leaves: its tempo, what was accepted, and how its ports ended.
#[derive(Drop)]
pub struct Sheet {
    pub tempo: Tempo,
    pub history: History,
    pub ends: Ends,
}
