//! The metadata in a room.
use super::one_enabling;
use crate::same::{UUID, same};
use dspec_ctf::{
    ClockStart, CpuPackets, Form, Kind, MetadataFault, NameFault, NameKind, Names, Origin,
    ProbeNames, Process, TextFault, TraceIdentity, metadata_from, put_metadata,
};
use dspec_record::Enablings;
use std::alloc::Global;
use std::test::Fail;

/// Process 77 of the machine `here`.
fn identity() -> TraceIdentity<'static> {
    TraceIdentity {
        uuid: UUID,
        clock: [9; 16],
        has_clock: true,
        pid: 77,
        hertz: 1000,
        seconds: 5,
        ticks: 6,
        host: b"here",
        name: b"server",
    }
}

/// Why there is none by these names.
fn fault_of(
    alloc: Global,
    identity: &TraceIdentity<'_>,
    enablings: &Enablings,
    names: &[&[u8]],
    kinds: &[u8],
) -> Option<TextFault> {
    put_metadata(alloc, identity, enablings, names, kinds, &mut [0; 8]).err()
}

#[test]
fn text_of_an_identity(rt: HostRuntime) -> Result<(), Fail> {
    let alloc = rt.alloc();
    let enablings = one_enabling()?;
    let origin = Origin {
        uuid: UUID,
        process: Some(Process {
            host: "here",
            name: "server",
            pid: 77,
        }),
        start: Some(ClockStart {
            seconds: 5,
            ticks: 6,
            clock: Some([9; 16]),
        }),
    };
    let mut kinds = [Kind::Unsigned; 8];
    kinds[0] = Kind::Signed;
    let event = ProbeNames {
        event: "step",
        fields: &["number"],
        kinds,
        labels: None,
    };
    let names = [event];
    let (form, given) = (Form::ByTime(1000), Names::Given(&names));
    let Ok(wanted) = metadata_from(alloc, &origin, form, &enablings, &given) else {
        return Err(Fail::from(std::alloc::AllocError));
    };
    let wanted = wanted.as_str().as_bytes();
    let mut room = Vec::from_elem(alloc, 0u8, wanted.len())?;
    let names: &[&[u8]] = &[b"step", b"number"];
    let put = put_metadata(alloc, &identity(), &enablings, names, &[1], &mut room);
    same(&rt, put, Ok(wanted.len()));
    same(&rt, room.as_slice() == wanted, true);
    let fault = fault_of(alloc, &identity(), &enablings, names, &[1]);
    same(&rt, fault, Some(TextFault::TooSmall(wanted.len())));
    Ok(())
}

#[test]
fn names_that_arent_allowed(rt: HostRuntime) -> Result<(), Fail> {
    let alloc = rt.alloc();
    let enablings = one_enabling()?;
    let no_text = MetadataFault::Name(NameFault::Word { epid: 1, place: 0 });
    let kind = NameKind::Reserved;
    let wrong = MetadataFault::Name(NameFault::Event { epid: 1, kind });
    for (names, kinds, wanted) in [
        (
            [b"step".as_slice()].as_slice(),
            [0].as_slice(),
            TextFault::Count,
        ),
        (&[b"step", b"number"], &[], TextFault::Count),
        (&[b"step", b"number", b"more"], &[0], TextFault::Count),
        (&[b"step", b"number"], &[5], TextFault::BadKind),
        (&[b"step", b"number"], &[3], TextFault::Metadata(no_text)),
        (&[b"step"], &[4], TextFault::Metadata(no_text)),
        (&[b"step", b"num\xFF"], &[0], TextFault::NotText),
        (&[b"event", b"number"], &[0], TextFault::Metadata(wrong)),
    ] {
        let found = fault_of(alloc, &identity(), &enablings, names, kinds);
        same(&rt, found, Some(wanted));
    }
    Ok(())
}

#[test]
fn identities_that_arent_allowed(rt: HostRuntime) -> Result<(), Fail> {
    let alloc = rt.alloc();
    let enablings = one_enabling()?;
    let bare = Enablings::new();
    let with_name = TraceIdentity {
        name: b"a\"b",
        ..identity()
    };
    let with_hertz = TraceIdentity {
        hertz: 0,
        ..identity()
    };
    for (identity, schema, wanted) in [
        (with_name, &enablings, MetadataFault::ProcessName),
        (with_hertz, &enablings, MetadataFault::NoFrequency),
        (identity(), &bare, MetadataFault::NoStamp),
    ] {
        let found = fault_of(alloc, &identity, schema, &[], &[]);
        same(&rt, found, Some(TextFault::Metadata(wanted)));
    }
    same(&rt, CpuPackets::of(alloc, UUID, &bare, 0).is_none(), true);
    Ok(())
}
