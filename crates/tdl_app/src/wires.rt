// The two wires of a run.
#[derive(Drop)]
pub(crate) struct Wires<'osc, 'midi, W> {
    pub osc: &'osc mut W,
    pub midi: &'midi mut W,
}
