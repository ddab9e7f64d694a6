// The limits of the notation.

/// How many brackets are open at most.
pub const MAX_DEPTH: usize = 16;

/// How many steps a sequence has at most.
pub const MAX_STEPS: u64 = 1024;

/// How many groups a sequence has at most.
pub const MAX_GROUPS: usize = 1024;

/// The largest sum of the weights of a group.
pub const MAX_WEIGHTS: u64 = 16_384;

/// The largest count after `!`.
pub const MAX_COUNT: u32 = 1024;

/// The largest whole part of a weight after `@`.
pub const MAX_WEIGHT: u32 = 16_383;

/// The largest whole part or numerator of a factor, or of a value of an argument.
pub const MAX_RATIO: u32 = 65_535;

/// One, in ten-thousandths.
pub const UNIT: u64 = 10_000;
