use crate::store::probes::{ABORTED, StoreProbes, transfer_of};
use dspec::{Probes, Rec, Report};
use std::io;

/// Prints a step of a transfer that began at that stamp.
fn tell_step<R: Print>(rt: &R, probes: &StoreProbes, began: u64, rec: &Rec) -> io::Result<()> {
    if let Some((_, account, balance)) = probes.read.read(rec) {
        print!(rt; " read {account}: {balance},")?;
    }
    if let Some((_, account)) = probes.wait.read(rec) {
        print!(rt; " wait {account},")?;
    }
    if let Some((_, account, balance)) = probes.write.read(rec) {
        print!(rt; " write {account}: {balance},")?;
    }
    if let Some((_, outcome)) = probes.end.read(rec) {
        let micros = rec.stamp().saturating_sub(began);
        let word = if outcome == ABORTED {
            "aborted"
        } else {
            "slow"
        };
        println!(rt; " {word} after {micros} us")?;
    }
    Ok(())
}

/// Prints all paths in the order in which they began. The records are in order of time.
pub fn tell_paths<R: Print>(
    rt: &R,
    declared: &Probes<'_>,
    probes: &StoreProbes,
    records: &[Rec],
) -> io::Result<()> {
    for begin in records {
        let (Some((number, ..)), Some(told)) = (probes.begin.read(begin), declared.tell(begin))
        else {
            continue;
        };
        let began = begin.stamp();
        print!(rt; "{began} us: {told}:")?;
        for rec in records {
            if transfer_of(rec) == u64::from(number) {
                tell_step(rt, probes, began, rec)?;
            }
        }
    }
    Ok(())
}

/// Prints what a worker's CPU reports.
pub fn tell_report<R: Print>(rt: &R, worker: u32, report: &Report) -> io::Result<()> {
    let (offered, accepted, discarded) = (report.offered, report.accepted, report.discarded);
    println!(rt; "cpu {worker} offered {offered} accepted {accepted} discarded {discarded}")?;
    Ok(())
}
