ghost use Rattle.std.specs.{Fmt.digit_glyph, List.enumerate_from, List.flat_map, Prelude.◌≡◌, Prelude.◌<◌, Prelude.◌++◌, Prelude.false, Prelude.IfOk, Prelude.OnOk, Prelude.string_bytes};
ghost use Rattle.dspec_schedule.specs.Printed.{printed_text, records_text};
ghost use Rattle.dspec_replay.specs.Buffers.{all_buffers, buffer_front, buffer_lines, bytes_digits, bytes_line, cpu_buffers};

use crate::texts::{BufferOrigin, ReadBuffer, Replayed};
use dspec_interleaving::Series;
use dspec_record::{Header, Rec};
use dspec_schedule::{print_record, printed};
use std::alloc::{AllocError, Global};

/// What is printed of a session's play with its bytes: what a play prints, and then for each CPU, buffer by buffer, a line with the
/// records and one with the bytes, each in two digits of base 16.
pub fn printed_with_bytes(
    alloc: Global,
    header: Header,
    replayed: &Replayed,
) -> Result<String, AllocError>
    ensures { IfOk result (λ text. string_bytes text ≡ printed_text header replayed.now.outcome ++ all_buffers header replayed.now.texts) }
{
    let mut text = printed(alloc, header, &replayed.outcome)?;
    print_all(&mut text, header, replayed.texts.as_slice())?;
    Ok(text)
}

/// The buffers of all CPUs.
fn print_all(
    text: &mut String,
    header: Header,
    all: &[Series<ReadBuffer>],
) -> Result<(), AllocError>
    ensures { OnOk result (string_bytes text.new ≡ string_bytes text.old ++ all_buffers header all.now) }
{
    for (cpu, buffers) in all.iter().enumerate() {
        print_buffers(text, header, cpu, buffers)?;
    }
    Ok(())
}

/// The buffers of a CPU.
fn print_buffers(
    text: &mut String,
    header: Header,
    cpu: usize,
    buffers: &Series<ReadBuffer>,
) -> Result<(), AllocError>
    ensures { OnOk result (string_bytes text.new ≡ string_bytes text.old ++ cpu_buffers header (cpu, buffers.now)) }
{
    for buffer in buffers.as_slice() {
        print_buffer(text, header, cpu, buffer)?;
    }
    Ok(())
}

/// The two lines of a buffer.
fn print_buffer(
    text: &mut String,
    header: Header,
    cpu: usize,
    buffer: &ReadBuffer,
) -> Result<(), AllocError>
    ensures { OnOk result (string_bytes text.new ≡ string_bytes text.old ++ buffer_lines header cpu buffer.now) }
{
    print_front(text, cpu, buffer)?;
    print_records(text, header, buffer.records.as_slice())?;
    print_bytes_of(text, cpu, buffer.bytes.as_slice())
}

/// What stands before a buffer's records.
fn print_front(text: &mut String, cpu: usize, buffer: &ReadBuffer) -> Result<(), AllocError>
    ensures { OnOk result (string_bytes text.new ≡ string_bytes text.old ++ buffer_front cpu buffer.now) }
{
    let (drops, count) = (buffer.drops, buffer.records.len());
    match buffer.origin {
        BufferOrigin::Batch => write!(text, "batch cpu {cpu} drops {drops} records {count}:"),
        BufferOrigin::Rest => write!(text, "rest cpu {cpu} drops {drops} records {count}:"),
    }
}

/// What stands after them: the bytes, on a line of their own.
fn print_bytes_of(text: &mut String, cpu: usize, bytes: &[u8]) -> Result<(), AllocError>
    ensures { OnOk result (string_bytes text.new ≡ string_bytes text.old ++ bytes_line cpu bytes.now) }
{
    write!(text, "\nbytes cpu {cpu}:")?;
    print_bytes(text, bytes)?;
    writeln!(text)
}

/// Records, each after a space.
fn print_records(text: &mut String, header: Header, recs: &[Rec]) -> Result<(), AllocError>
    ensures { OnOk result (string_bytes text.new ≡ string_bytes text.old ++ records_text header recs.now) }
{
    for each in recs {
        text.push_str(" ")?;
        print_record(text, header, each)?;
    }
    Ok(())
}

/// Bytes, each in two digits after a space.
fn print_bytes(text: &mut String, bytes: &[u8]) -> Result<(), AllocError>
    ensures { OnOk result (string_bytes text.new ≡ string_bytes text.old ++ bytes_digits bytes.now) }
{
    for byte in bytes {
        text.push(' ')?;
        text.push(sixteenth(*byte / 16))?;
        text.push(sixteenth(*byte % 16))?;
    }
    Ok(())
}

/// A digit of base 16.
fn sixteenth(value: u8) -> char
    requires { value < 16 }
    ensures glyph { result ≡ digit_glyph false value }
    ensures ascii { result < 128 }
{
    if value >= 10 {
        return char::from(b'a' + (value - 10));
    }
    char::from(b'0' + value)
}
