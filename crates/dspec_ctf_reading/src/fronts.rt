//! Packets split into their fronts and the bytes of their events, by the definition of `specs/Reading.antt`.

ghost use Rattle.std.specs.{Option.option_map, Prelude.◌≡◌, Prelude.◌≤◌, Prelude.length};
ghost use Rattle.dspec_ctf_reading.specs.Fronts.{front_of, split_after, split_packet as packet_split};
ghost use Rattle.dspec_ctf_reading.specs.Reading.{read_counts, read_front as front_read, read_header, read_number, read_span};

/// What a packet tells before its events.
#[derive(Debug, Clone, Copy)]
pub struct Front {
    /// The 16 bytes of its trace.
    pub uuid: [u8; 16],
    /// The stamps of its first event and of its last, where the trace has a clock.
    pub span: Option<(u64, u64)>,
    /// In bits, from its first byte to the end of its last event.
    pub content_size: u64,
    /// In bits, its own: its content, and what fills it up.
    pub packet_size: u64,
    /// How many events were missed on its CPU so far.
    pub discarded: u64,
    /// The number of its CPU.
    pub cpu: u32,
}

/// A packet, and what stands after it.
#[derive(Debug, Clone, Copy)]
pub struct SplitPacket<'b> {
    /// What it tells before its events.
    pub front: Front,
    /// The bytes of its events, up to the end of its content.
    pub body: &'b [u8],
    /// The bytes after it.
    pub after: &'b [u8],
}

/// A number of four bytes, and those after it.
fn four(bytes: &[u8]) -> Option<(u32, &[u8])>
    ensures { option_map (λ p. (p.0, p.1.now)) result ≡ read_number 4 bytes.now }
{
    let (number, rest) = bytes.split_first_chunk::<4>()?;
    Some((u32::from_le_bytes(*number), rest))
}

/// A number of eight bytes, and those after it.
fn eight(bytes: &[u8]) -> Option<(u64, &[u8])>
    ensures { option_map (λ p. (p.0, p.1.now)) result ≡ read_number 8 bytes.now }
{
    let (number, rest) = bytes.split_first_chunk::<8>()?;
    Some((u64::from_le_bytes(*number), rest))
}

/// Two stamps, where there is a clock, and the bytes after them.
fn span_at(timed: bool, bytes: &[u8]) -> Option<(Option<(u64, u64)>, &[u8])>
    ensures { option_map (λ p. (p.0, p.1.now)) result ≡ read_span timed bytes.now }
{
    if !timed {
        return Some((None, bytes));
    }
    let (begin, rest) = eight(bytes)?;
    let (end, rest) = eight(rest)?;
    Some((Some((begin, end)), rest))
}

/// The uuid of a packet's header, and the bytes after the header.
fn header_at(bytes: &[u8]) -> Option<([u8; 16], &[u8])>
    ensures { option_map (λ p. (p.0, p.1.now)) result ≡ read_header bytes.now }
{
    let (magic, rest) = four(bytes)?;
    if magic != 0xC1FC_1FC1 {
        return None;
    }
    let (uuid, rest) = rest.split_first_chunk::<16>()?;
    let (stream, rest) = four(rest)?;
    if stream != 0 {
        return None;
    }
    Some((*uuid, rest))
}

/// What stands after the stamps, with what was read before, and the bytes after.
fn counts_at(uuid: [u8; 16], span: Option<(u64, u64)>, bytes: &[u8]) -> Option<(Front, &[u8])>
    ensures { option_map (λ p. (front_of p.0, p.1.now)) result ≡ read_counts uuid span bytes.now }
{
    let (content_size, rest) = eight(bytes)?;
    let (packet_size, rest) = eight(rest)?;
    let (discarded, rest) = eight(rest)?;
    let (cpu, rest) = four(rest)?;
    Some((
        Front {
            uuid,
            span,
            content_size,
            packet_size,
            discarded,
            cpu,
        },
        rest,
    ))
}

/// The front of the packet with which these bytes begin, of a trace with a clock or without, and the bytes after it; None where they
/// begin with no front.
pub fn read_front(timed: bool, bytes: &[u8]) -> Option<(Front, &[u8])>
    ensures { option_map (λ p. (front_of p.0, p.1.now)) result ≡ front_read timed bytes.now }
{
    let (uuid, rest) = header_at(bytes)?;
    let (span, rest) = span_at(timed, rest)?;
    counts_at(uuid, span, rest)
}

/// The packet with which these bytes begin: its front, and the bytes of its events up to the end of its content. What fills it up after
/// them is passed over. None where the bytes begin with no front, and where its sizes don't agree with each other and with the bytes.
pub fn split_packet(timed: bool, bytes: &[u8]) -> Option<SplitPacket<'_>>
    ensures { option_map (λ p. record { front = front_of p.front; body = p.body.now; after = p.after.now }) result ≡ packet_split timed bytes.now }
{
    let (front, rest) = read_front(timed, bytes)?;
    let read = bytes.len() - rest.len();
    if front.content_size % 8 != 0 || front.packet_size % 8 != 0 {
        return None;
    }
    let (content, end) = (front.content_size / 8, front.packet_size / 8);
    if content < (read as u64)
        || front.packet_size < front.content_size
        || (bytes.len() as u64) < end
    {
        return None;
    }
    let (content, end) = (content as usize, end as usize);
    Some(SplitPacket {
        front,
        body: &rest[..content - read],
        after: &bytes[end..],
    })
}
