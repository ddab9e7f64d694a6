/// A test of a number of cycles that have passed in a round.
#[derive(Clone, Copy, PartialEq, Eq)]
pub enum Test {
    Equal(u32),
    AtLeast(u32),
}
