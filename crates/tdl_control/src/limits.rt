// Limits that crates share of which neither stands on the other.

/// How many bytes a word has at most.
pub const MAX_WORD: usize = 32;

/// The largest number before a `.` or `%` in a text.
pub const MAX_WHOLE: u32 = 2_147_483_647;

/// How many digits follow a `.` at most.
pub const MAX_DECIMALS: usize = 4;

/// The largest number after a `%`.
pub const MAX_DENOMINATOR: u32 = 65_535;

/// Orbits are 1 to this.
pub const MAX_ORBIT: u8 = 16;

/// Of how many cycles at most a multiple is the boundary of a change.
pub const MAX_EVERY: u32 = 4096;
