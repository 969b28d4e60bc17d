//! Workers with a state of their own come back, each to its place, and a stop ends work that has no end of its own.
use dspec::{
    Batch, Config, Enablings, Field, Lane, Sink, StartFault, Stop, Worker, closed_cpus,
    trace_workers,
};
use std::test::Fail;
use std::thread;

/// It records so many numbers, each once, and counts them.
#[derive(Drop)]
struct Counter {
    most: u64,
    done: u64,
}

impl Worker<Enablings> for Counter {
    fn work(&mut self, lane: &mut Lane<'_, Enablings>) {
        for number in 0..self.most {
            let _ = lane.record(1, 0, &[number]);
            self.done = self.done.wrapping_add(1);
        }
    }
}

/// How many batches came, and how many bytes of records.
#[derive(Drop)]
pub struct Counted {
    pub batches: u64,
    pub bytes: u64,
}

impl Sink<Enablings> for Counted {
    fn batch(&mut self, _schema: &Enablings, batch: &Batch) {
        self.batches = self.batches.wrapping_add(1);
        self.bytes = self.bytes.wrapping_add(batch.buffer.bytes().len() as u64);
    }
}

#[test]
fn workers_come_back_to_their_places(rt: HostRuntime) -> Result<(), Fail> {
    let mut schema = Enablings::new();
    assert!(rt; schema.enable(&[Field::Eight]).is_ok());
    let mut workers = Vec::new(rt.alloc());
    for most in 1..4 {
        assert!(rt; workers.push(Counter { most, done: 0 }).is_ok());
    }
    let config = Config::of(64, 4, 64, 64);
    let mut sink = Counted {
        batches: 0,
        bytes: 0,
    };
    let closed = trace_workers(&rt, rt.alloc(), &config, schema, &mut workers, &mut sink)?;
    assert!(rt; closed.cpus() == 3 && workers.len() == 3 && sink.batches >= 3);
    let mut due = 1..4;
    for cpu in closed_cpus(&closed) {
        let worker = workers.get(cpu.number as usize);
        assert!(rt; due.next() == worker.map(|worker| worker.done));
        assert!(rt; worker.map(|worker| worker.done) == Some(cpu.report.offered));
    }
    Ok(())
}

#[test]
fn no_workers_are_no_session(rt: HostRuntime) -> Result<(), Fail> {
    let config = Config::of(1, 4, 64, 64);
    let mut workers: Vec<Counter> = Vec::new(rt.alloc());
    let mut sink = Counted {
        batches: 0,
        bytes: 0,
    };
    let ended = trace_workers(
        &rt,
        rt.alloc(),
        &config,
        Enablings::new(),
        &mut workers,
        &mut sink,
    );
    let Err(fault) = ended else {
        return Err("a session of no CPUs".into());
    };
    assert!(rt; fault == StartFault::Cpus);
    Ok(())
}

/// How often a worker looks whether it is stopped.
const MOST_LOOKS: u32 = 3_000_000;

/// It records until it is stopped, and says whether it was.
#[derive(Drop)]
struct Endless<'a> {
    stop: &'a Stop,
    was_stopped: bool,
}

impl Worker<Enablings> for Endless<'_> {
    fn work(&mut self, lane: &mut Lane<'_, Enablings>) {
        for _look in 0..MOST_LOOKS {
            if self.stop.is_set() {
                self.was_stopped = true;
                return;
            }
            let _ = lane.record(1, 0, &[7]);
            lane.service();
            thread::yield_now();
        }
    }
}

/// It stops the workers at its third batch.
#[derive(Drop)]
struct Third<'a> {
    stop: &'a Stop,
    batches: u64,
}

impl Sink<Enablings> for Third<'_> {
    fn batch(&mut self, _schema: &Enablings, _batch: &Batch) {
        self.batches = self.batches.wrapping_add(1);
        if self.batches == 3 {
            self.stop.set();
        }
    }
}

#[test]
fn stop_of_a_sink_is_heeded(rt: HostRuntime) -> Result<(), Fail> {
    let mut schema = Enablings::new();
    assert!(rt; schema.enable(&[Field::Eight]).is_ok());
    let stop = Stop::new();
    assert!(rt; !stop.is_set());
    let mut workers = Vec::new(rt.alloc());
    for _ in 0..2 {
        let worker = Endless {
            stop: &stop,
            was_stopped: false,
        };
        assert!(rt; workers.push(worker).is_ok());
    }
    let mut sink = Third {
        stop: &stop,
        batches: 0,
    };
    let config = Config::of(2, 4, 64, 64);
    trace_workers(&rt, rt.alloc(), &config, schema, &mut workers, &mut sink)?;
    assert!(rt; sink.batches >= 3 && stop.is_set());
    assert!(rt; workers.iter().all(|worker| worker.was_stopped));
    Ok(())
}

#[test]
fn stop_that_is_set_stays_set(rt: HostRuntime) -> Result<(), Fail> {
    let stop = Stop::new();
    assert!(rt; !stop.is_set());
    stop.set();
    assert!(rt; stop.is_set());
    stop.set();
    assert!(rt; stop.is_set());
    Ok(())
}
