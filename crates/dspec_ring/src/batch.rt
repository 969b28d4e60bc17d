use dspec_buffer::ByteBuffer;

/// A principal buffer on its way between a CPU and the consumer.
#[derive(Debug, Drop)]
pub struct Batch {
    /// The CPU whose buffer it is.
    pub cpu: u32,
    /// How many reservations that CPU's principal buffer has refused since it was last switched.
    pub drops: u64,
    /// The records that it kept since then.
    pub buffer: ByteBuffer,
}
