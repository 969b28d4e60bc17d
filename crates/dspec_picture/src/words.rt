//! The words in which a step is told.
ghost use Rattle.std.specs.Prelude.{◌<◌};

use crate::room::{CpuBuffers, bytes_needed};
use dspec_deeds::{Config, DecideFate, Deed, SpeculateFate, TraceFate};
use dspec_record::{Header, Rec, Schema, Shape};
use dspec_schedule::print_record;
use dspec_word::{Code, SpecId, Word};
use std::alloc::AllocError;

/// Where a speculation stands.
pub(crate) fn standing_name(code: Code) -> &'static str {
    match code {
        Code::Discarding => "discarding",
        Code::CommittingMany => "committing many",
        Code::Committing => "committing",
        Code::ActiveMany => "many",
        Code::ActiveOne => "one",
        Code::Active => "active",
        Code::Inactive => "inactive",
    }
}

/// A slot's word, by the number of the speculation that it has or gives out next.
fn tell_word(text: &mut String, slot: u32, word: Word) -> Result<(), AllocError>
    requires slot { slot < 64 }
{
    let number = SpecId::of(word.issue(), slot).raw();
    let name = standing_name(word.code());
    write!(text, "{number} {name}")
}

fn traced_name(fate: TraceFate) -> &'static str {
    match fate {
        TraceFate::Stopped => "stopped",
        TraceFate::Dropped => "dropped",
        TraceFate::Kept => "kept",
    }
}

fn spoken_name(fate: SpeculateFate) -> &'static str {
    match fate {
        SpeculateFate::Stopped => "stopped",
        SpeculateFate::Void => "void",
        SpeculateFate::Dropped => "dropped",
        SpeculateFate::Kept => "kept",
    }
}

/// What became of a buffer, with how many records it had.
fn tell_decided(text: &mut String, fate: DecideFate) -> Result<(), AllocError> {
    match fate {
        DecideFate::Stopped => write!(text, " stopped"),
        DecideFate::Void => write!(text, " void"),
        DecideFate::Thrown(count) => write!(text, " thrown {count}"),
        DecideFate::Lost(count) => write!(text, " lost {count}"),
        DecideFate::Copied(count) => write!(text, " copied {count}"),
    }
}

fn tell_trace(
    text: &mut String,
    header: Header,
    rec: &Rec,
    fate: TraceFate,
) -> Result<(), AllocError> {
    text.push_str("trace ")?;
    print_record(text, header, rec)?;
    text.push_str(" ")?;
    text.push_str(traced_name(fate))
}

fn tell_speculate(
    text: &mut String,
    header: Header,
    id: SpecId,
    rec: &Rec,
    fate: SpeculateFate,
) -> Result<(), AllocError> {
    let number = id.raw();
    write!(text, "speculate {number} ")?;
    print_record(text, header, rec)?;
    text.push_str(" ")?;
    text.push_str(spoken_name(fate))
}

/// A speculation, after what is done with it and a space.
pub(crate) fn tell_about(text: &mut String, verb: &str, id: SpecId) -> Result<(), AllocError> {
    let number = id.raw();
    write!(text, "{verb}{number}")
}

/// A decision or a settlement, after its name and a space.
fn tell_verb(
    text: &mut String,
    verb: &str,
    id: SpecId,
    fate: DecideFate,
) -> Result<(), AllocError> {
    tell_about(text, verb, id)?;
    tell_decided(text, fate)
}

fn tell_scan(text: &mut String, running: bool) -> Result<(), AllocError> {
    if running {
        return text.push_str("scan");
    }
    text.push_str("scan stopped")
}

fn tell_miss(text: &mut String, slot: u32, busy: bool) -> Result<(), AllocError> {
    if busy {
        return write!(text, "miss slot {slot} busy");
    }
    write!(text, "miss slot {slot}")
}

/// A deed, without the CPU that the line is of.
fn tell_deed(text: &mut String, header: Header, deed: &Deed) -> Result<(), AllocError> {
    match *deed {
        Deed::Trace(_, rec, fate) => tell_trace(text, header, &rec, fate),
        Deed::Scan(_, running) => tell_scan(text, running),
        Deed::Opened(_, id) => tell_about(text, "opened ", id),
        Deed::Miss(_, slot, busy) => tell_miss(text, slot, busy),
        Deed::Speculate(_, id, rec, fate) => tell_speculate(text, header, id, &rec, fate),
        Deed::Commit(_, id, fate) => tell_verb(text, "commit ", id, fate),
        Deed::Discard(_, id, fate) => tell_verb(text, "discard ", id, fate),
        Deed::Settle(_, id, fate) => tell_verb(text, "settle ", id, fate),
        Deed::Seal(_) => text.push_str("seal"),
        Deed::Release(slot) => write!(text, "release slot {slot}"),
        Deed::Halt => text.push_str("halt"),
    }
}

/// How many bytes were needed after those that a buffer of this size has, and how many were left.
fn tell_refused(
    text: &mut String,
    size: u32,
    reach: u32,
    align: u32,
    needed: u32,
) -> Result<(), AllocError> {
    let (needed, left) = (
        bytes_needed(reach, align, needed),
        size.saturating_sub(reach),
    );
    write!(text, ": {needed} bytes needed, {left} left")
}

/// The same of the principal buffer, which may be closed.
fn tell_principal(
    text: &mut String,
    config: &Config,
    room: CpuBuffers,
    align: u32,
    needed: u32,
) -> Result<(), AllocError> {
    if room.closed {
        return text.push_str(": the buffer is closed");
    }
    tell_refused(text, config.bufsize, room.reach, align, needed)
}

/// The shape of a record.
fn shape_of<S: Schema>(schema: &S, rec: &Rec) -> Shape {
    match schema.shape(rec.epid()) {
        Some(shape) => shape,
        None => Shape { size: 0, align: 4 },
    }
}

/// Why the principal buffer took no record of a deed, where it took none.
fn tell_undropped<S: Schema>(
    text: &mut String,
    config: &Config,
    schema: &S,
    room: CpuBuffers,
    rec: &Rec,
    fate: TraceFate,
) -> Result<(), AllocError> {
    if !matches!(fate, TraceFate::Dropped) {
        return Ok(());
    }
    let shape = shape_of(schema, rec);
    tell_principal(text, config, room, shape.align, shape.size)
}

/// Why the buffer of a speculation took no record of a deed, where it took none.
fn tell_unspoken<S: Schema>(
    text: &mut String,
    config: &Config,
    schema: &S,
    room: CpuBuffers,
    rec: &Rec,
    fate: SpeculateFate,
) -> Result<(), AllocError> {
    if !matches!(fate, SpeculateFate::Dropped) {
        return Ok(());
    }
    let shape = shape_of(schema, rec);
    tell_refused(text, config.specsize, room.held, shape.align, shape.size)
}

/// Why the principal buffer took no block of a deed, where it took none.
fn tell_lost(
    text: &mut String,
    config: &Config,
    room: CpuBuffers,
    fate: DecideFate,
) -> Result<(), AllocError> {
    if !matches!(fate, DecideFate::Lost(_)) {
        return Ok(());
    }
    tell_principal(text, config, room, 8, room.held)
}

/// Why a buffer refused a record or a block by a deed, where one did.
fn tell_refusal<S: Schema>(
    text: &mut String,
    config: &Config,
    schema: &S,
    room: CpuBuffers,
    deed: &Deed,
) -> Result<(), AllocError> {
    match *deed {
        Deed::Trace(_, rec, fate) => tell_undropped(text, config, schema, room, &rec, fate),
        Deed::Speculate(_, _, rec, fate) => {
            tell_unspoken(text, config, schema, room, &rec, fate)
        }
        Deed::Commit(_, _, fate) => tell_lost(text, config, room, fate),
        Deed::Settle(_, _, fate) => tell_lost(text, config, room, fate),
        _ => Ok(()),
    }
}

/// A deed after what is told.
pub(crate) fn tell_after<S: Schema>(
    text: &mut String,
    config: &Config,
    schema: &S,
    room: CpuBuffers,
    header: Header,
    deed: &Deed,
) -> Result<(), AllocError> {
    text.push_str("; ")?;
    tell_deed(text, header, deed)?;
    tell_refusal(text, config, schema, room, deed)
}

/// A load of a slot's word.
pub(crate) fn tell_load(text: &mut String, slot: u32, word: Word) -> Result<(), AllocError>
    requires slot { slot < 64 }
{
    write!(text, "loads slot {slot}: ")?;
    tell_word(text, slot, word)
}

/// A word of a slot, after what is told of it.
fn tell_found(text: &mut String, told: &str, slot: u32, word: Word) -> Result<(), AllocError>
    requires slot { slot < 64 }
{
    text.push_str(told)?;
    tell_word(text, slot, word)
}

/// What an exchange that expects a word comes to.
fn tell_exchanged(text: &mut String, slot: u32, from: Word, word: Word) -> Result<(), AllocError>
    requires slot { slot < 64 }
{
    if word.raw() == from.raw() {
        return text.push_str("done");
    }
    tell_found(text, "fails, shown ", slot, word)
}

/// An exchange of a slot's word, which expects one and attempts another.
pub(crate) fn tell_exchange(
    text: &mut String,
    slot: u32,
    from: Word,
    to: Word,
    word: Word,
) -> Result<(), AllocError>
    requires slot { slot < 64 }
{
    tell_found(text, "exchanges ", slot, from)?;
    tell_found(text, " for ", slot, to)?;
    text.push_str(": ")?;
    tell_exchanged(text, slot, from, word)
}
