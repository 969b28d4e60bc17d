//! The next packets of a CPU's file, as its batches are taken.

ghost use Rattle.std.specs.Prelude.{◌≡◌, ◌+◌, [], false, IfErr, IfOk, OnOk};
ghost use Rattle.dspec_ctf.specs.{Filled.filled_packets, Streams.HasNoPacket, declared.stream.PacketFault.TheVariants.Memory};
ghost use Rattle.dspec_ctf_sink.specs.Writing.{AreNextOf};

use dspec::Batch;
use dspec_ctf::{PacketFault, Stream};
use std::alloc::Global;

/// A packet without events, which tells of none missed.
fn silent_packet(alloc: Global, stream: &Stream<'_>) -> Result<Vec<u8>, PacketFault>
    ensures silent { IfOk result
        (λ bytes. bytes.items ≡ filled_packets false stream.now.enablings.now stream.now.uuid 0 stream.now.cpu []) }
    ensures fault { IfErr result (λ fault. fault ≡ Memory) }
{
    let mut silent = Stream {
        missed: 0,
        ..*stream
    };
    silent.batch_packets(alloc, 0, &[])
}

/// The packets of the next batch, for a file that told of so many missed events. Tools tell by how much more a packet tells than the one before it, so
/// where missed events are told first, a packet that tells of none stands in front.
pub(crate) fn next_packets(
    alloc: Global,
    stream: &mut Stream<'_>,
    told: u64,
    batch: &Batch,
) -> Result<Vec<u8>, PacketFault>
    ensures packets { IfOk result (λ bytes. AreNextOf stream.old.enablings.now stream.old.uuid
        (stream.old.missed + batch.now.drops) stream.old.cpu batch.now.buffer.text told bytes.items) }
    ensures counted { OnOk result (stream.new.missed ≡ stream.old.missed + batch.now.drops) }
    ensures fault { IfErr result (HasNoPacket stream.old.enablings.now stream.old.missed batch.now.drops batch.now.buffer.text) }
{
    let packets = match stream.batch_packets(alloc, batch.drops, batch.buffer.bytes()) {
        Ok(packets) => packets,
        Err(fault) => return Err(fault),
    };
    if told != 0 || stream.missed == 0 {
        return Ok(packets);
    }
    let mut bytes = match silent_packet(alloc, stream) {
        Ok(bytes) => bytes,
        Err(fault) => return Err(fault),
    };
    bytes.extend_from_slice(&packets)?;
    Ok(bytes)
}
