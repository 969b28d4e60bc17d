use super::scratch::Scratch;
use crate::{Rows, Run};
use dspec_record::{Enablings, Rec};
use std::marker::Model;

/// The files of one CPU in a trace by time that is written while it runs, for a program that writes them itself. Each batch of the CPU is opened, and
/// then its packets are put into the caller's memory, those of one write a call, until there is none. They go whole to the end of the file that is named with them, so that each of
/// their 1,024 bytes lies in one page of the file and a kill leaves whole packets; where they can't be written, `lose` says so before the next call. The CPU's records go to files, 64 at most, of which each has stamps that don't fall
/// (`Rows`). It has the records of one batch in memory, and keeps that memory for the next; `reserve` takes it before.
#[derive(Drop)]
pub struct CpuPackets {
    pub(crate) uuid: [u8; 16],
    pub(crate) enablings: Enablings,
    pub(crate) cpu: u32,
    pub(crate) rows: Rows,
    pub(crate) missed: u64,
    pub(crate) told: u64,
    pub(crate) told_before: u64,
    pub(crate) records: Vec<Rec>,
    pub(crate) from: usize,
    pub(crate) place: usize,
    pub(crate) run: Option<Run>,
    pub(crate) scratch: Scratch,
}

impl Model for CpuPackets {
    ghost use Rattle.std.specs.Vec.{vec_capacity};
    ghost use Rattle.dspec_ctf.specs.InMemory.Filing.{CpuFiling, IsSoundFiling};

    ghost Value = { CpuFiling };

    ghost view = { λ i. record { uuid = i.uuid; schema = i.enablings; cpu = i.cpu; lasts = i.rows; missed = i.missed; told = i.told; told_before = i.told_before; records = i.records.items; from = i.from; place = i.place; run = i.run; room = record { records = vec_capacity i.records; bytes = vec_capacity i.scratch.bytes; body = vec_capacity i.scratch.body } } };

    ghost invariant = { λ i. IsSoundFiling (record { uuid = i.uuid; schema = i.enablings; cpu = i.cpu; lasts = i.rows; missed = i.missed; told = i.told; told_before = i.told_before; records = i.records.items; from = i.from; place = i.place; run = i.run; room = record { records = vec_capacity i.records; bytes = vec_capacity i.scratch.bytes; body = vec_capacity i.scratch.body } }) };
}
