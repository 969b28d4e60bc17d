//! The exports of a trace by time that C writes.

ghost use Rattle.std.specs.Prelude.{◌≡◌, MatchResult, map, true, false};
ghost use Rattle.dspec_c.specs.CtfCalls.{BeginsFiles, CtfLoseAnswers, CtfMetadataAnswers, CtfMissAnswers, CtfNewAnswers, CtfOpenAnswers, CtfPutAnswers, CtfReserveAnswers, CtfSwapRoomsAnswers};
ghost use Rattle.dspec_c.specs.CtfCalls.{HasNoFiles, OpensSo, PutsSo, ReservesSo, SwapsSo, SwapsWith, packet_room, text_room};
ghost use Rattle.dspec_c.specs.Handles.{held_in, is_full};

use crate::boxed::Boxed;
use crate::ctf_statuses::{NO_PACKET, NO_STAMP, needed_of, of_packet, of_put, of_text, text_size};
use crate::handle::{Handle, HandleContents, lent};
use crate::held::HandleValue;
use crate::schema_calls::schema_in;
use crate::statuses::{BAD_HANDLE, BUSY, FULL_HANDLE, NO_MEMORY, NO_SUCH_CPU, OK};
use dspec_ctf::{CpuPackets, Packet, TraceIdentity, put_metadata};
use dspec_record::Enablings;
use std::alloc::Global;

/// Puts the metadata of a trace of this schema.
#[unsafe(no_mangle)]
pub extern "C" fn dspec_ctf_metadata(
    alloc: Global,
    schema: &mut Handle,
    identity: &TraceIdentity<'_>,
    names: &[&[u8]],
    kinds: &[u8],
    room: &mut [u8],
    size: &mut usize,
) -> u32
    ensures answers { CtfMetadataAnswers identity.now (map (λ n. n.now) names.now) kinds.now (held_in schema.old) result
        (text_room room.old size.old) (text_room room.new size.new) (held_in schema.new) }
    ensures stays { is_full schema.new ≡ is_full schema.old }
{
    let Some(schema) = schema_in(schema) else {
        return BAD_HANDLE;
    };
    match put_metadata(alloc, identity, &schema, names, kinds, room) {
        Ok(count) => {
            *size = count;
            OK
        }
        Err(fault) => {
            *size = text_size(fault, *size);
            of_text(fault)
        }
    }
}

// The files of a CPU, of which there is none yet; or the status that says why not.
fn files_of(
    alloc: Global,
    uuid: [u8; 16],
    schema: &Enablings,
    cpu: u32,
) -> Result<Boxed<CpuPackets>, u32>
    ensures { MatchResult result (BeginsFiles uuid schema.now cpu) (HasNoFiles schema.now) }
{
    let Some(files) = CpuPackets::of(alloc, uuid, schema, cpu) else {
        return Err(NO_STAMP);
    };
    let Ok(files) = Boxed::new(alloc, files) else {
        return Err(NO_MEMORY);
    };
    Ok(files)
}

/// The files of a CPU in a trace of this schema, of which there is none yet.
#[unsafe(no_mangle)]
pub extern "C" fn dspec_ctf_new(
    alloc: Global,
    schema: &mut Handle,
    identity: &TraceIdentity<'_>,
    cpu: u32,
    files: &mut Handle,
) -> u32
    ensures full { is_full files.old ≡ true → (result ≡ 18) × (files.new ≡ files.old) × (schema.new ≡ schema.old) }
    ensures answers { is_full files.old ≡ false → CtfNewAnswers identity.now.uuid cpu (held_in schema.old) result (held_in schema.new) files.old files.new }
    ensures stays { is_full schema.new ≡ is_full schema.old }
{
    if files.is_held() {
        return FULL_HANDLE;
    }
    let Some(schema) = schema_in(schema) else {
        return BAD_HANDLE;
    };
    let made = match files_of(alloc, identity.uuid, &schema, cpu) {
        Ok(made) => made,
        Err(why) => return why,
    };
    let Ok(room) = HandleContents::room(alloc) else {
        return NO_MEMORY;
    };
    files.put(room, HandleValue::Files(made));
    OK
}

fn reserve(files: &mut CpuPackets, size: usize) -> u32
    ensures { ReservesSo size files.old result files.new }
{
    match files.reserve(size) {
        Ok(()) => OK,
        Err(_) => NO_MEMORY,
    }
}

/// Takes memory for batches of so many bytes.
#[unsafe(no_mangle)]
pub extern "C" fn dspec_ctf_reserve(files: &mut Handle, size: usize) -> u32
    ensures answers { CtfReserveAnswers size (held_in files.old) result (held_in files.new) }
    ensures stays { is_full files.new ≡ is_full files.old }
{
    lent!(files as Files(boxed), BAD_HANDLE => reserve(boxed.lend(), size))
}

fn swap_rooms(files: &mut CpuPackets, other: &mut CpuPackets) -> u32
    ensures { SwapsSo files.old other.old result files.new other.new }
{
    match files.swap_rooms(other) {
        true => OK,
        false => BUSY,
    }
}

// The room is exchanged with that of the files which another handle holds.
fn swap_with(files: &mut CpuPackets, other: &mut Handle) -> u32
    ensures answers { SwapsWith files.old (held_in other.old) result files.new (held_in other.new) }
    ensures stays { is_full other.new ≡ is_full other.old }
{
    lent!(other as Files(boxed), BAD_HANDLE => swap_rooms(files, boxed.lend()))
}

/// Exchanges the rooms of two CPUs' files.
#[unsafe(no_mangle)]
pub extern "C" fn dspec_ctf_swap_rooms(files: &mut Handle, other: &mut Handle) -> u32
    ensures answers { CtfSwapRoomsAnswers (held_in files.old) (held_in other.old) result (held_in files.new) (held_in other.new) }
    ensures stays { is_full files.new ≡ is_full files.old }
    ensures other_stays { is_full other.new ≡ is_full other.old }
{
    lent!(files as Files(boxed), BAD_HANDLE => swap_with(boxed.lend(), other))
}

fn open(files: &mut CpuPackets, cpu: u32, drops: u64, bytes: &[u8]) -> u32
    ensures { OpensSo cpu drops bytes.now files.old result files.new }
{
    if files.cpu() != cpu {
        return NO_SUCH_CPU;
    }
    match files.open(drops, bytes) {
        Ok(()) => OK,
        Err(fault) => of_packet(fault),
    }
}

/// Opens the next batch of the CPU.
#[unsafe(no_mangle)]
pub extern "C" fn dspec_ctf_open(files: &mut Handle, cpu: u32, drops: u64, bytes: &[u8]) -> u32
    ensures answers { CtfOpenAnswers cpu drops bytes.now (held_in files.old) result (held_in files.new) }
    ensures stays { is_full files.new ≡ is_full files.old }
{
    lent!(files as Files(boxed), BAD_HANDLE => open(boxed.lend(), cpu, drops, bytes))
}

fn put(files: &mut CpuPackets, room: &mut [u8], packet: &mut Packet) -> u32
    ensures { PutsSo files.old result
        (packet_room room.old packet.old) (packet_room room.new packet.new) files.new }
{
    match files.put(room) {
        Ok(Some(put)) => {
            *packet = put;
            OK
        }
        Ok(None) => NO_PACKET,
        Err(fault) => {
            packet.size = needed_of(fault, packet.size);
            of_put(fault)
        }
    }
}

/// Puts the next packet of the batch.
#[unsafe(no_mangle)]
pub extern "C" fn dspec_ctf_put(files: &mut Handle, room: &mut [u8], packet: &mut Packet) -> u32
    ensures answers { CtfPutAnswers (held_in files.old) result
        (packet_room room.old packet.old) (packet_room room.new packet.new) (held_in files.new) }
    ensures stays { is_full files.new ≡ is_full files.old }
{
    lent!(files as Files(boxed), BAD_HANDLE => put(boxed.lend(), room, packet))
}

/// Says that the packet that was handed out last wasn't written, and that the rest of the batch won't be.
#[unsafe(no_mangle)]
pub extern "C" fn dspec_ctf_lose(files: &mut Handle, records: &mut u64) -> u32
    ensures answers { CtfLoseAnswers (held_in files.old) result records.old records.new (held_in files.new) }
    ensures stays { is_full files.new ≡ is_full files.old }
{
    lent!(files as Files(boxed), BAD_HANDLE => {
        *records = boxed.lend().lose();
        OK
    })
}

/// Counts events that the CPU missed for another reason.
#[unsafe(no_mangle)]
pub extern "C" fn dspec_ctf_miss(files: &mut Handle, count: u64) -> u32
    ensures answers { CtfMissAnswers count (held_in files.old) result (held_in files.new) }
    ensures stays { is_full files.new ≡ is_full files.old }
{
    lent!(files as Files(boxed), BAD_HANDLE => {
        boxed.lend().miss(count);
        OK
    })
}
