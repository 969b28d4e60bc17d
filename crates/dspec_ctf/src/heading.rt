ghost use Rattle.std.specs.{Fmt.digit_glyph, Prelude.◌≡◌, Prelude.◌<◌, Prelude.◌++◌, Prelude.false, Prelude.OnOk, Prelude.string_bytes};
ghost use Rattle.dspec_ctf.specs.Metadata.{hex_byte, hex, hyphened, uuid_text, types_text, trace_front, trace_back, trace_text, host_text, program_text, pid_text, process_text, environment_text};
ghost use Rattle.dspec_ctf.specs.Metadata.{clock_uuid, seconds_text, ticks_text, clock_start, clock_front, start_text, clock_back, clock_text, stream_text};

use crate::{ClockStart, Form, Process};
use std::alloc::AllocError;

/// A digit of base 16.
fn digit(value: u8) -> char
    requires { value < 16 }
    ensures glyph { result ≡ digit_glyph false value }
    ensures ascii { result < 128 }
{
    if value < 10 {
        char::from(b'0' + value)
    } else {
        char::from(b'a' - 10 + value)
    }
}

/// Two digits of base 16.
fn print_byte(text: &mut String, byte: u8) -> Result<(), AllocError>
    ensures { OnOk result (string_bytes text.new ≡ string_bytes text.old ++ hex_byte byte) }
{
    text.push(digit(byte / 16))?;
    text.push(digit(byte % 16))
}

/// Two digits for each byte.
#[tactic(auto, unfolding(crate::specs::Metadata::hex))]
fn print_hex(text: &mut String, bytes: &[u8]) -> Result<(), AllocError>
    ensures { OnOk result (string_bytes text.new ≡ string_bytes text.old ++ hex bytes.now) }
{
    for byte in bytes {
        print_byte(text, *byte)?;
    }
    Ok(())
}

/// The same after a hyphen.
#[tactic(auto, unfolding(crate::specs::Metadata::hyphened))]
fn print_hyphened(text: &mut String, bytes: &[u8]) -> Result<(), AllocError>
    ensures { OnOk result (string_bytes text.new ≡ string_bytes text.old ++ hyphened bytes.now) }
{
    text.push_str("-")?;
    print_hex(text, bytes)
}

/// A uuid: 4, 2, 2, 2 and 6 bytes.
#[tactic(auto, unfolding(crate::specs::Metadata::uuid_text))]
fn print_uuid(text: &mut String, uuid: &[u8; 16]) -> Result<(), AllocError>
    ensures { OnOk result (string_bytes text.new ≡ string_bytes text.old ++ uuid_text uuid.now) }
{
    print_hex(text, &uuid[..4])?;
    print_hyphened(text, &uuid[4..6])?;
    print_hyphened(text, &uuid[6..8])?;
    print_hyphened(text, &uuid[8..10])?;
    print_hyphened(text, &uuid[10..16])
}

/// The types of the integers.
#[tactic(auto, unfolding(crate::specs::Metadata::types_text))]
pub(crate) fn types_part() -> &'static str
    ensures { result.now ≡ types_text }
{
    "/* CTF 1.8 */\n\ntypealias integer { size = 8; align = 8; signed = false; } := uint8_t;\ntypealias integer { size = 16; align = 8; signed = false; } := uint16_t;\ntypealias integer { size = 32; align = 8; signed = false; } := uint32_t;\ntypealias integer { size = 64; align = 8; signed = false; } := uint64_t;\n"
}

#[tactic(auto, unfolding(crate::specs::Metadata::trace_front))]
fn trace_front_part() -> &'static str
    ensures { result.now ≡ trace_front }
{
    "\ntrace {\n\tmajor = 1;\n\tminor = 8;\n\tuuid = \""
}

#[tactic(auto, unfolding(crate::specs::Metadata::trace_back))]
fn trace_back_part() -> &'static str
    ensures { result.now ≡ trace_back }
{
    "\";\n\tbyte_order = le;\n\tpacket.header := struct {\n\t\tuint32_t magic;\n\t\tuint8_t uuid[16];\n\t\tuint32_t stream_id;\n\t};\n};\n\nenv {\n"
}

/// The trace with its uuid.
pub(crate) fn print_trace(text: &mut String, uuid: &[u8; 16]) -> Result<(), AllocError>
    ensures { OnOk result (string_bytes text.new ≡ string_bytes text.old ++ trace_text uuid.now) }
{
    text.push_str(trace_front_part())?;
    print_uuid(text, uuid)?;
    text.push_str(trace_back_part())
}

/// The name of a machine.
fn print_host(text: &mut String, name: &str) -> Result<(), AllocError>
    ensures { OnOk result (string_bytes text.new ≡ string_bytes text.old ++ host_text name.now) }
{
    writeln!(text, "\thostname = \"{name}\";")
}

/// The name of a program.
fn print_program(text: &mut String, name: &str) -> Result<(), AllocError>
    ensures { OnOk result (string_bytes text.new ≡ string_bytes text.old ++ program_text name.now) }
{
    writeln!(text, "\tprocname = \"{name}\";")
}

/// The number of a process.
fn print_pid(text: &mut String, pid: u32) -> Result<(), AllocError>
    ensures { OnOk result (string_bytes text.new ≡ string_bytes text.old ++ pid_text pid) }
{
    writeln!(text, "\tvpid = {pid};")
}

/// A process.
#[tactic(auto, unfolding(crate::specs::Metadata::process_text))]
fn print_process(text: &mut String, process: &Process<'_>) -> Result<(), AllocError>
    ensures { OnOk result (string_bytes text.new ≡ string_bytes text.old ++ process_text process.now) }
{
    print_host(text, process.host)?;
    print_program(text, process.name)?;
    print_pid(text, process.pid)
}

/// What surrounds the trace.
pub(crate) fn print_environment(
    text: &mut String,
    process: Option<Process<'_>>,
) -> Result<(), AllocError>
    ensures { OnOk result (string_bytes text.new ≡ string_bytes text.old ++ environment_text process.entry) }
{
    if let Some(process) = process {
        print_process(text, &process)?;
    }
    text.push_str("\ttracer_name = \"sidingyarrow\";\n};\n")
}

/// The uuid of a clock.
fn print_clock_uuid(text: &mut String, uuid: &[u8; 16]) -> Result<(), AllocError>
    ensures { OnOk result (string_bytes text.new ≡ string_bytes text.old ++ clock_uuid uuid.now) }
{
    text.push_str("\tuuid = \"")?;
    print_uuid(text, uuid)?;
    text.push_str("\";\n")
}

/// So many seconds after the beginning of 1970.
fn print_seconds(text: &mut String, seconds: u64) -> Result<(), AllocError>
    ensures { OnOk result (string_bytes text.new ≡ string_bytes text.old ++ seconds_text seconds) }
{
    writeln!(text, "\toffset_s = {seconds};")
}

/// And so many ticks.
fn print_ticks(text: &mut String, ticks: u64) -> Result<(), AllocError>
    ensures { OnOk result (string_bytes text.new ≡ string_bytes text.old ++ ticks_text ticks) }
{
    write!(text, "\toffset = {ticks};\n\tabsolute = true;\n")
}

/// Where a clock began.
#[tactic(auto, unfolding(crate::specs::Metadata::clock_start))]
fn print_clock_start(text: &mut String, start: &ClockStart) -> Result<(), AllocError>
    ensures { OnOk result (string_bytes text.new ≡ string_bytes text.old ++ clock_start start.now) }
{
    if let Some(uuid) = start.clock {
        print_clock_uuid(text, &uuid)?;
    }
    print_seconds(text, start.seconds)?;
    print_ticks(text, start.ticks)
}

/// A clock of so many ticks a second, in braces that are still open.
fn print_clock_front(text: &mut String, frequency: u64) -> Result<(), AllocError>
    ensures { OnOk result (string_bytes text.new ≡ string_bytes text.old ++ clock_front frequency) }
{
    writeln!(text, "\nclock {{\n\tname = stamp;\n\tfreq = {frequency};")
}

/// Where it began, if that is told.
fn print_start(text: &mut String, start: Option<ClockStart>) -> Result<(), AllocError>
    ensures { OnOk result (string_bytes text.new ≡ string_bytes text.old ++ start_text start) }
{
    match start {
        Some(start) => print_clock_start(text, &start),
        None => Ok(()),
    }
}

#[tactic(auto, unfolding(crate::specs::Metadata::clock_back))]
fn clock_back_part() -> &'static str
    ensures { result.now ≡ clock_back }
{
    "};\n\ntypealias integer { size = 64; align = 8; signed = false; map = clock.stamp.value; } := stamp_t;\n"
}

/// The clock, in a trace by time.
pub(crate) fn print_clock(
    text: &mut String,
    start: Option<ClockStart>,
    form: Form,
) -> Result<(), AllocError>
    ensures { OnOk result (string_bytes text.new ≡ string_bytes text.old ++ clock_text start form) }
{
    let Form::ByTime(frequency) = form else {
        return Ok(());
    };
    print_clock_front(text, frequency)?;
    print_start(text, start)?;
    text.push_str(clock_back_part())
}

/// How packets and events begin.
pub(crate) fn stream_part(form: Form) -> &'static str
    ensures { result.now ≡ stream_text form }
{
    match form {
        Form::AsTaken =>
            "\nstream {\n\tid = 0;\n\tpacket.context := struct {\n\t\tuint64_t content_size;\n\t\tuint64_t packet_size;\n\t\tuint64_t events_discarded;\n\t\tuint32_t cpu_id;\n\t};\n\tevent.header := struct {\n\t\tuint32_t id;\n\t};\n};\n",
        Form::ByTime(_) =>
            "\nstream {\n\tid = 0;\n\tpacket.context := struct {\n\t\tstamp_t timestamp_begin;\n\t\tstamp_t timestamp_end;\n\t\tuint64_t content_size;\n\t\tuint64_t packet_size;\n\t\tuint64_t events_discarded;\n\t\tuint32_t cpu_id;\n\t};\n\tevent.header := struct {\n\t\tuint32_t id;\n\t\tstamp_t timestamp;\n\t};\n};\n",
    }
}
