// What a text is read as.

/// A line, or a pattern alone.
#[derive(Clone, Copy)]
pub enum Goal {
    Line,
    Pattern,
}
