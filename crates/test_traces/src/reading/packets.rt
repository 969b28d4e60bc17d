//! Packets and events, byte by byte, by the format's description.
use super::metadata::TIMED;
use crate::same::{UUID, same, stream_of, three_enablings};
use crate::writing::packets::{PACKET, TEXT};
use dspec_ctf::{Form, Names, metadata};
use dspec_ctf_reading::{
    Event, EventFault, EventsFault, PacketReadFault, WholePacketFault, check_events, check_packet,
    next_packet, read_event, read_events, read_metadata,
};
use dspec_record::{Enablings, Field, SchemaFault};
use std::process::Abort;
use std::test::Fail;

/// The text of the metadata of three enablings.
fn three_texts(rt: &impl AllocGlobal) -> Result<String, Fail> {
    let enablings = three_enablings()?;
    let names = Names::Numbered;
    let text = metadata(rt.alloc(), &UUID, Form::AsTaken, &enablings, &names)?;
    Ok(text)
}

/// Compares an event with its place, its stamp and its values.
fn same_event(
    rt: &impl Abort,
    found: Option<&Event>,
    place: usize,
    stamp: Option<u64>,
    values: &[u64],
) {
    let Some(found) = found else {
        return same(rt, false, true);
    };
    same(rt, found.place, place);
    same(rt, found.stamp, stamp);
    same(rt, found.values.as_slice() == values, true);
}

#[test]
fn written_and_read(rt: HostRuntime) -> Result<(), Fail> {
    let enablings = three_enablings()?;
    let bytes = stream_of(&enablings, 0).packet(rt.alloc(), 5, &TEXT)?;
    let text = three_texts(&rt)?;
    let metadata = read_metadata(rt.alloc(), text.as_bytes())?;
    same(&rt, metadata.events.len(), 3);
    let packet = next_packet(false, &bytes)?;
    same(&rt, packet.front.discarded, 5);
    same(&rt, packet.after.len(), 0);
    let events = read_events(rt.alloc(), &metadata, packet.body)?;
    same(&rt, events.len(), 3);
    same_event(&rt, events.get(0), 0, None, &[]);
    same_event(&rt, events.get(1), 1, None, &[7]);
    same_event(&rt, events.get(2), 2, None, &[171, 4660]);
    Ok(())
}

#[test]
fn stamped_event(rt: HostRuntime) -> Result<(), Fail> {
    let metadata = read_metadata(rt.alloc(), TIMED.as_bytes())?;
    // `open` at 2^32 + 5: failed, -2, 1.0, and three bytes after it
    let bytes = [
        1, 0, 0, 0, 5, 0, 0, 0, 1, 0, 0, 0, 1, 254, 255, 255, 255, 0, 0, 0, 0, 0, 0, 240, 63, 9, 9,
        9,
    ];
    let (event, rest) = read_event(rt.alloc(), &metadata, &bytes)?;
    let values = [1, 4_294_967_294, 4_607_182_418_800_017_408];
    same_event(&rt, Some(&event), 0, Some(4_294_967_301), &values);
    same(&rt, rest.len(), 3);
    Ok(())
}

/// What is no packet of these bytes, where they are changed at one place.
fn refused(rt: &impl Abort, at: usize, byte: u8, wanted: PacketReadFault) {
    let mut bytes = PACKET;
    if let Some(place) = bytes.get_mut(at) {
        *place = byte;
    }
    same(rt, next_packet(false, &bytes).err(), Some(wanted));
}

/// The same bytes with both sizes of these two bytes, the lower first.
fn sized(low: u8, high: u8) -> [u8; 75] {
    let mut bytes = PACKET;
    bytes[24] = low;
    bytes[25] = high;
    bytes[32] = low;
    bytes[33] = high;
    bytes
}

#[test]
fn refused_fronts(rt: HostRuntime) -> Result<(), Fail> {
    for bytes in [&PACKET[..51], &[]] {
        let found = next_packet(false, bytes).err();
        same(&rt, found, Some(PacketReadFault::Cut));
    }
    refused(&rt, 0, 192, PacketReadFault::Magic(0xC1FC_1FC0));
    refused(&rt, 20, 1, PacketReadFault::Stream(1));
    let text = format!(in rt.alloc(); "{}", PacketReadFault::Magic(0x10))?;
    same(&rt, text.as_str(), "no packet begins with 0x00000010");
    Ok(())
}

#[test]
fn refused_sizes(rt: HostRuntime) {
    refused(&rt, 24, 87, PacketReadFault::ContentWithinByte(599));
    refused(&rt, 32, 89, PacketReadFault::PacketWithinByte(601));
    let found = next_packet(false, &sized(152, 1)).err();
    same(&rt, found, Some(PacketReadFault::BeforeEvents(408)));
    let after = PacketReadFault::AfterPacket {
        content: 608,
        packet: 600,
    };
    refused(&rt, 24, 96, after);
    let found = next_packet(false, &sized(96, 2)).err();
    same(&rt, found, Some(PacketReadFault::AfterFile(608)));
}

#[test]
fn told_sizes(rt: HostRuntime) -> Result<(), Fail> {
    let after = PacketReadFault::AfterPacket {
        content: 608,
        packet: 600,
    };
    let mut text = format!(in rt.alloc(); "{after}\n")?;
    write!(text, "{}\n", PacketReadFault::ContentWithinByte(599))?;
    write!(text, "{}\n", PacketReadFault::PacketWithinByte(601))?;
    write!(text, "{}\n", PacketReadFault::BeforeEvents(408))?;
    write!(text, "{}\n", PacketReadFault::AfterFile(608))?;
    let wanted =
        "content of 608 bits ends after its packet of 600\ncontent of 599 bits ends within a byte\na packet of 601 bits ends within a byte\ncontent of 408 bits ends before the events\na packet of 608 bits ends after the file\n";
    same(&rt, text.as_str(), wanted);
    Ok(())
}

/// The same packet filled up by five bytes, to 640 bits, and one byte after it.
fn filled() -> [u8; 81] {
    let mut bytes = [0xC1; 81];
    bytes[..75].copy_from_slice(&PACKET);
    bytes[32] = 128;
    bytes
}

#[test]
fn filled_packets(rt: HostRuntime) -> Result<(), Fail> {
    let text = three_texts(&rt)?;
    let metadata = read_metadata(rt.alloc(), text.as_bytes())?;
    let bytes = filled();
    let packet = check_packet(&metadata, &bytes)?;
    same(&rt, packet.body == &PACKET[52..], true);
    same(&rt, packet.after, &bytes[80..]);
    same(&rt, check_events(&metadata, packet.body)?, 3);
    let Some(short) = bytes.get(..79) else {
        return Err("80 bytes and more".into());
    };
    let found = next_packet(false, short).err();
    same(&rt, found, Some(PacketReadFault::AfterFile(640)));
    Ok(())
}

#[test]
fn whole_packets(rt: HostRuntime) -> Result<(), Fail> {
    let text = three_texts(&rt)?;
    let metadata = read_metadata(rt.alloc(), text.as_bytes())?;
    let packet = check_packet(&metadata, &PACKET)?;
    same(&rt, packet.body.len(), 23);
    same(&rt, check_events(&metadata, packet.body)?, 3);
    let found = check_packet(&metadata, &PACKET[..74]).err();
    let after = PacketReadFault::AfterFile(600);
    same(&rt, found, Some(WholePacketFault::Packet(after)));
    Ok(())
}

#[test]
fn refused_events(rt: HostRuntime) -> Result<(), Fail> {
    let text = three_texts(&rt)?;
    let metadata = read_metadata(rt.alloc(), text.as_bytes())?;
    let mut bytes = PACKET;
    bytes[56] = 4;
    let unknown = EventsFault {
        before: 1,
        at: 4,
        fault: EventFault::Unknown(4),
    };
    let found = check_packet(&metadata, &bytes).err();
    same(&rt, found, Some(WholePacketFault::Events(unknown)));
    let found = read_events(rt.alloc(), &metadata, &bytes[52..]).err();
    same(&rt, found, Some(unknown));
    let cut = EventsFault {
        before: 2,
        at: 16,
        fault: EventFault::Cut,
    };
    let found = check_packet(&metadata, &sized(80, 2)).err();
    same(&rt, found, Some(WholePacketFault::Events(cut)));
    let found = read_event(rt.alloc(), &metadata, &[1, 0, 0]).err();
    same(&rt, found, Some(EventFault::Cut));
    let text = format!(in rt.alloc(); "{cut}")?;
    let wanted = "event 2, at byte 16: the bytes end within an event";
    same(&rt, text.as_str(), wanted);
    Ok(())
}
