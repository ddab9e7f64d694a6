// The limits of lines.

/// How many bytes a line has at most.
pub const MAX_LINE: usize = 2048;
