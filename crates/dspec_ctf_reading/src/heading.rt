//! What stands before the events of a metadata's text.

ghost use Rattle.std.specs.Prelude.{◌≡◌, is_some};
ghost use Rattle.dspec_ctf_reading.specs.Parts.{Gives, read_trace};
ghost use Rattle.dspec_ctf_reading.specs.ReadingMetadata.{read_clock, read_clock_start, read_clock_uuid, read_process, rest_past, stream_lines};

use crate::fault::{Expected, ReadStop};
use crate::scan::{after, decimal, past, past_text, quoted};
use crate::told::{ClockText, ToldProcess};

/// The types that each of our traces has.
const TYPES: &str =
    "/* CTF 1.8 */\n\ntypealias integer { size = 8; align = 8; signed = false; } := uint8_t;\ntypealias integer { size = 16; align = 8; signed = false; } := uint16_t;\ntypealias integer { size = 32; align = 8; signed = false; } := uint32_t;\ntypealias integer { size = 64; align = 8; signed = false; } := uint64_t;\n";

/// The trace up to its uuid.
const TRACE: &str = "\ntrace {\n\tmajor = 1;\n\tminor = 8;\n\tuuid = \"";

/// The byte order and the header of packets, and the environment's beginning.
const HEADER: &str =
    "\";\n\tbyte_order = le;\n\tpacket.header := struct {\n\t\tuint32_t magic;\n\t\tuint8_t uuid[16];\n\t\tuint32_t stream_id;\n\t};\n};\n\nenv {\n";

/// The type of the clock's stamps, after the clock.
const CLOCK_END: &str =
    "};\n\ntypealias integer { size = 64; align = 8; signed = false; map = clock.stamp.value; } := stamp_t;\n";

/// The streams of a trace without a clock.
const STREAM: &str =
    "\nstream {\n\tid = 0;\n\tpacket.context := struct {\n\t\tuint64_t content_size;\n\t\tuint64_t packet_size;\n\t\tuint64_t events_discarded;\n\t\tuint32_t cpu_id;\n\t};\n\tevent.header := struct {\n\t\tuint32_t id;\n\t};\n};\n";

/// The streams of a trace with a clock.
const TIMED_STREAM: &str =
    "\nstream {\n\tid = 0;\n\tpacket.context := struct {\n\t\tstamp_t timestamp_begin;\n\t\tstamp_t timestamp_end;\n\t\tuint64_t content_size;\n\t\tuint64_t packet_size;\n\t\tuint64_t events_discarded;\n\t\tuint32_t cpu_id;\n\t};\n\tevent.header := struct {\n\t\tuint32_t id;\n\t\tstamp_t timestamp;\n\t};\n};\n";

/// The text of the trace's uuid, and the bytes after the lines in which it stands.
pub(crate) fn trace(bytes: &[u8]) -> Result<(&str, &[u8]), ReadStop>
    ensures { Gives result (λ p. p.1.now) (read_trace bytes.now) }
{
    let rest = past(bytes, TYPES, Expected::Types)?;
    let rest = past(rest, TRACE, Expected::Text(TRACE))?;
    let (uuid, rest) = quoted(rest)?;
    let rest = past(rest, HEADER, Expected::Header)?;
    Ok((uuid, rest))
}

/// The process, where it is told, and the bytes after it.
pub(crate) fn process(bytes: &[u8]) -> Result<(Option<ToldProcess<'_>>, &[u8]), ReadStop>
    ensures { Gives result (λ p. p.1.now) (read_process bytes.now) }
{
    let Some(rest) = after(bytes, "\thostname = \"") else {
        return Ok((None, bytes));
    };
    let (host, rest) = quoted(rest)?;
    let rest = past_text(rest, "\";\n\tprocname = \"")?;
    let (name, rest) = quoted(rest)?;
    let rest = past_text(rest, "\";\n\tvpid = ")?;
    let (pid, rest) = decimal(rest)?;
    let rest = past_text(rest, ";\n")?;
    Ok((Some(ToldProcess { host, name, pid }), rest))
}

/// The text of the clock's uuid, where it is told, and the bytes after it.
fn clock_uuid(bytes: &[u8]) -> Result<(Option<&str>, &[u8]), ReadStop>
    ensures { Gives result (λ p. p.1.now) (read_clock_uuid bytes.now) }
{
    let Some(rest) = after(bytes, "\tuuid = \"") else {
        return Ok((None, bytes));
    };
    let (uuid, rest) = quoted(rest)?;
    let rest = past_text(rest, "\";\n")?;
    Ok((Some(uuid), rest))
}

/// Where the clock began, where it is told, and the bytes after it.
fn clock_start(bytes: &[u8]) -> Result<(Option<(u64, u64)>, &[u8]), ReadStop>
    ensures { Gives result (λ p. p.1.now) (read_clock_start bytes.now) }
{
    let Some(rest) = after(bytes, "\toffset_s = ") else {
        return Ok((None, bytes));
    };
    let (seconds, rest) = decimal(rest)?;
    let rest = past_text(rest, ";\n\toffset = ")?;
    let (ticks, rest) = decimal(rest)?;
    let rest = past_text(rest, ";\n\tabsolute = true;\n")?;
    Ok((Some((seconds, ticks)), rest))
}

/// The clock, where there is one, and the bytes after it.
pub(crate) fn clock(bytes: &[u8]) -> Result<(Option<ClockText<'_>>, &[u8]), ReadStop>
    ensures { Gives result (λ p. (is_some p.0, p.1.now)) (read_clock bytes.now) }
{
    let Some(rest) = after(bytes, "\nclock {\n\tname = stamp;\n\tfreq = ") else {
        return Ok((None, bytes));
    };
    let (frequency, rest) = decimal(rest)?;
    let rest = past_text(rest, ";\n")?;
    let (uuid, rest) = clock_uuid(rest)?;
    let (start, rest) = clock_start(rest)?;
    let rest = past(rest, CLOCK_END, Expected::Text(CLOCK_END))?;
    Ok((
        Some(ClockText {
            frequency,
            uuid,
            start,
        }),
        rest,
    ))
}

/// What is after the streams of a trace with a clock or without.
pub(crate) fn streams(timed: bool, bytes: &[u8]) -> Result<&[u8], ReadStop>
    ensures { Gives result (λ rest. rest.now) (rest_past (stream_lines timed) bytes.now) }
{
    if timed {
        past(bytes, TIMED_STREAM, Expected::Stream)
    } else {
        past(bytes, STREAM, Expected::Stream)
    }
}
