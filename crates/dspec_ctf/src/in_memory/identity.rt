/// Whose trace it is, and of which clock its stamps are, as plain bytes and numbers. The texts are of one line: 1 to 255 bytes of printable
/// ASCII without quotes and backslashes.
#[repr(C)]
#[derive(Debug, Clone, Copy)]
pub struct TraceIdentity<'a> {
    /// The trace's uuid, which no other trace has.
    pub uuid: [u8; 16],
    /// The uuid of the clock, where several processes read one clock.
    pub clock: [u8; 16],
    /// Whether there is one.
    pub has_clock: bool,
    /// The number of the process.
    pub pid: u32,
    /// How many ticks of the clock a second has.
    pub hertz: u64,
    /// Where the clock began, in whole seconds from the beginning of 1970 on.
    pub seconds: u64,
    /// And so many ticks.
    pub ticks: u64,
    /// The name of the machine.
    pub host: &'a [u8],
    /// The name of the program.
    pub name: &'a [u8],
}
