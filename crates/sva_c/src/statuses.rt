//! How a call ended, by the numbers of include/svahost.h.

/// The report is whole, and tells of no fault.
pub const DONE: u32 = 0;

/// The report is whole, and tells what is wrong with the text.
pub const FAULTED: u32 = 1;

/// The report has more bytes than the buffer.
pub const TOO_SMALL: u32 = 2;

/// Memory ran out.
pub const NO_MEMORY: u32 = 3;

/// The report is whole: an order is unsafe, a line waits for ever, or a claim fails.
pub const FAILS: u32 = 5;

/// The report is whole, and the search was cut off before that was known.
pub const CUT_OFF: u32 = 6;
