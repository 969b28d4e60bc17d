/// What was handed out for one write: a packet of the format, or several one after another.
#[repr(C)]
#[derive(Debug, Clone, Copy, PartialEq, Eq)]
pub struct Packet {
    /// The number of the CPU's file to whose end it is to be written.
    pub file: usize,
    /// How many bytes it has: 1,024 for each packet of the format.
    pub size: usize,
    /// How many records are in it; none where it tells what was missed.
    pub records: usize,
}
