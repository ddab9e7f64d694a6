use tdl_serve::Ports;

/// The devices that a run may use. `input` has a script, `out` gets what the run prints, `log` its
/// history; packets go to `osc` and `midi`, `clock` gives the beats, and each performer has a port.
#[derive(Drop)]
pub struct Outside<S, K, W, C> {
    pub input: S,
    pub out: K,
    pub log: K,
    pub osc: W,
    pub midi: W,
    pub clock: C,
    pub ports: Ports<S, K>,
}
