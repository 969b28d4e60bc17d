use crate::watch::probes::ServerProbes;
use crate::watch::requests::{ROUNDS, Request};
use crate::watch::serving::Server;
use anyhow::{Result, bail, ensure};
use dspec::{Rec, Report};
use std::io;

/// How many steps of a request were recorded: all that is there of it has to be its first steps, in order.
fn steps_of(probes: &ServerProbes, seen: &[Rec], request: Request) -> Result<u64> {
    let mut steps = 0u64;
    for rec in seen {
        let Some((action, (number, micros))) = probes.read(rec) else {
            bail!("{rec} is of no probe");
        };
        if u64::from(number) == request.number {
            let next = steps < request.steps() && request.step(steps) == (action, (number, micros));
            ensure!(next, "{rec} is no next step of its request");
            steps = steps.saturating_add(1);
        }
    }
    Ok(steps)
}

/// Compares what was recorded of a worker's requests with what the generator made: of a failed request all steps, or none where
/// they are counted as lost or void, and of a request that succeeded none. The report has to tell of as many.
pub fn compare(server: &Server, worker: u32, seen: &[Rec], report: &Report) -> Result<()> {
    let (mut offered, mut kept, mut missing) = (0u64, 0u64, 0u64);
    for round in 0..ROUNDS {
        let request = Request::of(server.seed, u64::from(worker), round);
        let (steps, recorded) = (request.steps(), steps_of(&server.probes, seen, request)?);
        let whole = recorded == 0 || (request.fails && recorded == steps);
        let number = request.number;
        ensure!(whole, "request {number} has {recorded} steps recorded");
        offered = offered.saturating_add(steps);
        kept = kept.saturating_add(recorded);
        if request.fails {
            missing = missing.saturating_add(steps.saturating_sub(recorded));
        }
    }
    let lost = report.lost.saturating_add(report.void);
    let agrees = report.offered == offered && report.accepted == kept && missing <= lost;
    ensure!(
        agrees,
        "cpu {worker}: {missing} steps are missing of {report:?}"
    );
    Ok(())
}

/// Prints what was recorded of a request.
fn tell_path<R: Print>(
    rt: &R,
    probes: &ServerProbes,
    seen: &[Rec],
    request: Request,
) -> io::Result<()> {
    print!(rt; "request {} failed", request.number)?;
    let mut before = ":";
    for rec in seen {
        if let Some((action, (number, micros))) = probes.read(rec) {
            if u64::from(number) == request.number {
                print!(rt; "{before} {} {micros} us", action.name())?;
                before = ",";
            }
        }
    }
    println!(rt; "")
}

/// Prints the paths of a worker's failed requests, and what its CPU reports.
pub fn tell<R: Print>(
    rt: &R,
    server: &Server,
    worker: u32,
    seen: &[Rec],
    report: &Report,
) -> io::Result<()> {
    for round in 0..ROUNDS {
        let request = Request::of(server.seed, u64::from(worker), round);
        if request.fails {
            tell_path(rt, &server.probes, seen, request)?;
        }
    }
    let (offered, accepted, discarded) = (report.offered, report.accepted, report.discarded);
    let (lost, void) = (report.lost, report.void);
    println!(rt;
        "cpu {worker} offered {offered} accepted {accepted} discarded {discarded} lost {lost} void {void}"
    )
}
