//! Packets split into their fronts and the bytes of their events.
use super::{by_time, packets};
use crate::same::{UUID, same};
use dspec_ctf_reading::fronts::{read_front, split_packet};
use std::alloc::AllocError;
use std::test::Fail;

#[test]
fn fronts_of_packets(rt: HostRuntime) -> Result<(), Fail> {
    let Some(packet) = split_packet(false, &packets::PACKET) else {
        return Err(Fail::from(AllocError));
    };
    same(&rt, packet.front.uuid == UUID, true);
    same(&rt, packet.front.span, None);
    same(&rt, packet.front.packet_size, 600);
    same(&rt, packet.front.discarded, 5);
    same(&rt, packet.front.cpu, 1);
    same(&rt, packet.body.len(), 23);
    same(&rt, packet.after.is_empty(), true);
    let Some((front, rest)) = read_front(true, &by_time::PACKET) else {
        return Err(Fail::from(AllocError));
    };
    same(&rt, front.span, Some((2, 9)));
    same(&rt, front.content_size, 952);
    same(&rt, front.discarded, 7);
    same(&rt, rest.len(), 51);
    Ok(())
}

#[test]
fn refused_packets(rt: HostRuntime) -> Result<(), Fail> {
    let packet = packets::PACKET.as_slice();
    same(&rt, split_packet(false, &packet[..74]).is_none(), true);
    same(&rt, split_packet(true, packet).is_none(), true);
    same(&rt, read_front(false, &packet[..51]).is_none(), true);
    same(&rt, read_front(false, &packet[1..]).is_none(), true);
    Ok(())
}
