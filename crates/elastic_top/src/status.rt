/// How a call ended: 0 done, 1 usage, 2 read fault, 3 write fault, 4 kernel refused, 5 net refused, 6 inputs refused,
/// 7 schedule refused, 8 limit, 9 stuck, 10 stray, 11 want of memory, 12 file too long, 13 undefined, 14 out of turns,
/// 15 snapshot refused.
#[derive(Clone, Copy, PartialEq, Eq)]
pub struct Status {
    pub code: u8,
}

/// The status of a kernel that is refused, whichever command reads it.
pub const KERNEL_REFUSED: u8 = 4;

/// The status of inputs that are refused, whatever they are for.
pub const INPUTS_REFUSED: u8 = 6;

/// The status of a text that is no saved state of the net.
pub const SNAPSHOT_REFUSED: u8 = 15;

/// The status of want of memory.
pub const WANT_OF_MEMORY: u8 = 11;
