//! Readers and writers that fail, the limit of the input, and the texts of faults that no schedule has. All other texts are
//! those of `examples/`.
use super::*;
use std::process::Abort;
use std::test::Fail;

const THREE_TRACES: &[u8] = b"config 1 1 8 8 8 100\nrun 0 trace 1\nrun 0 trace 2\nrun 0 trace 3\n";

const THREE_PRINTED: &str = "cpu 0 trace kept\ncpu 0 trace kept\ncpu 0 trace dropped\n\
    report cpu 0 offered 3 accepted 2 dropped 1 specdropped 0 lost 0 discarded 0 void 0 held 0 \
    drops 1 unavailable 0 busy 0 stopped 0 worn 0\nstream cpu 0: 1 2\n";

const STAMPED: &[u8] = b"config 1 1 24 8 8 100\nheader 2\nrun 0 trace 1@7\nrun 0 trace 2\n";

const STAMPED_PRINTED: &str = "cpu 0 trace kept\ncpu 0 trace kept\n\
    report cpu 0 offered 2 accepted 2 dropped 0 specdropped 0 lost 0 discarded 0 void 0 held 0 \
    drops 0 unavailable 0 busy 0 stopped 0 worn 0\nstream cpu 0: 1@7 2@0\n";

const FILLED: &[u8] = b"config 1 1 24 8 8 100\nheader 2\npolicy fill\nenable 8\nenable\n\
    run 0 trace 1@7 5\nrun 0 trace 2@8\n";

const FILLED_PRINTED: &str = "cpu 0 trace kept\ncpu 0 trace dropped\n\
    report cpu 0 offered 2 accepted 1 dropped 1 specdropped 0 lost 0 discarded 0 void 0 held 0 \
    drops 1 unavailable 0 busy 0 stopped 0 worn 0\nstream cpu 0: 1@7(5)\n";

const EMPTY_PRINTED: &str =
    "report cpu 0 offered 0 accepted 0 dropped 0 specdropped 0 lost 0 discarded 0 void 0 \
    held 0 drops 0 unavailable 0 busy 0 stopped 0 worn 0\nstream cpu 0:\n";

/// A reader that gives one byte a read, and fails at the read of that number, counted from 0.
#[derive(Drop)]
struct Trickle<'a> {
    bytes: &'a [u8],
    reads_left: usize,
}

impl Read for Trickle<'_> {
    fn read(&mut self, buffer: &mut [u8]) -> io::Result<usize> {
        if self.reads_left == 0 {
            return Err(io::Error::from(io::ErrorKind::Other));
        }
        self.reads_left -= 1;
        let (Some((first, rest)), Some(place)) = (self.bytes.split_first(), buffer.first_mut())
        else {
            return Ok(0);
        };
        *place = *first;
        self.bytes = rest;
        Ok(1)
    }
}

/// A writer that takes one byte at each second write, where the first is interrupted, and fails after so many bytes.
#[derive(Drop)]
struct Narrow {
    taken: Vec<u8>,
    bytes_left: usize,
    is_ready: bool,
}

impl Write for Narrow {
    fn write(&mut self, bytes: &[u8]) -> io::Result<usize> {
        let (Some(first), true) = (bytes.first(), self.bytes_left > 0) else {
            return Err(io::Error::from(io::ErrorKind::Other));
        };
        self.is_ready = !self.is_ready;
        if self.is_ready {
            return Err(io::Error::from(io::ErrorKind::Interrupted));
        }
        self.bytes_left -= 1;
        match self.taken.push(*first) {
            Ok(()) => Ok(1),
            Err(_) => Ok(0),
        }
    }

    fn flush(&mut self) -> io::Result<()> {
        if self.bytes_left == 0 {
            return Err(io::Error::from(io::ErrorKind::Other));
        }
        Ok(())
    }
}

/// Runs a schedule, and compares how that ends and what it writes.
fn ends<R: Read>(
    rt: &(impl Abort + AllocGlobal),
    input: &mut R,
    told: Result<(), RunFault>,
    printed: &str,
) {
    let mut output = Vec::new(rt.alloc());
    assert!(rt; run(rt.alloc(), input, &mut output) == told);
    assert_eq!(rt; output.as_slice(), printed.as_bytes());
}

#[test]
fn tells_of_a_failed_read(rt: HostRuntime) {
    for reads_left in 0..THREE_TRACES.len() + 1 {
        let mut input = Trickle {
            bytes: THREE_TRACES,
            reads_left,
        };
        ends(&rt, &mut input, Err(RunFault::Read), "");
    }
    let mut whole = Trickle {
        bytes: THREE_TRACES,
        reads_left: 100,
    };
    ends(&rt, &mut whole, Ok(()), THREE_PRINTED);
}

/// What a writer took of the three traces before it failed, and how the run ended.
fn writes(alloc: Global, bytes_left: usize) -> (Result<(), RunFault>, Vec<u8>) {
    let mut input = THREE_TRACES;
    let mut output = Narrow {
        taken: Vec::new(alloc),
        bytes_left,
        is_ready: false,
    };
    let told = run(alloc, &mut input, &mut output);
    (told, output.taken)
}

#[test]
fn tells_of_a_failed_write(rt: HostRuntime) {
    let printed = THREE_PRINTED.as_bytes();
    for bytes_left in 0..printed.len() + 1 {
        let (told, taken) = writes(rt.alloc(), bytes_left);
        assert!(rt; told == Err(RunFault::Write));
        assert!(rt; taken.as_slice() == &printed[..bytes_left]);
    }
    let (told, taken) = writes(rt.alloc(), printed.len() + 1);
    assert!(rt; told == Ok(()));
    assert!(rt; taken.as_slice() == printed);
}

/// A writer that holds what it takes until it is flushed.
#[derive(Drop)]
struct Holding {
    held: Vec<u8>,
    out: Vec<u8>,
}

impl Write for Holding {
    fn write(&mut self, bytes: &[u8]) -> io::Result<usize> {
        match self.held.extend_from_slice(bytes) {
            Ok(()) => Ok(bytes.len()),
            Err(_) => Ok(0),
        }
    }

    fn flush(&mut self) -> io::Result<()> {
        match self.out.append(&mut self.held) {
            Ok(()) => Ok(()),
            Err(_) => Err(io::Error::from(io::ErrorKind::OutOfMemory)),
        }
    }
}

/// What is told as written has gone out.
#[test]
fn flushes_what_it_prints(rt: HostRuntime) {
    let mut input = THREE_TRACES;
    let mut output = Holding {
        held: Vec::new(rt.alloc()),
        out: Vec::new(rt.alloc()),
    };
    assert!(rt; run(rt.alloc(), &mut input, &mut output) == Ok(()));
    assert_eq!(rt; output.out.as_slice(), THREE_PRINTED.as_bytes());
}

#[test]
fn takes_input_up_to_the_limit(rt: HostRuntime) -> Result<(), Fail> {
    let mut schedule = b"config 1 1 64 64 8 100\n".to_vec(rt.alloc())?;
    schedule.resize(1_048_576, b'\n')?;
    let mut input = Trickle {
        bytes: schedule.as_slice(),
        reads_left: 2_097_152,
    };
    ends(&rt, &mut input, Ok(()), EMPTY_PRINTED);
    schedule.push(b'\n')?;
    let mut long = schedule.as_slice();
    ends(&rt, &mut long, Err(RunFault::TooLong), "");
    Ok(())
}

#[test]
fn plays_stamped_records(rt: HostRuntime) {
    for (schedule, printed) in [(STAMPED, STAMPED_PRINTED), (FILLED, FILLED_PRINTED)] {
        let mut input = schedule;
        ends(&rt, &mut input, Ok(()), printed);
    }
}

#[test]
fn tells_each_fault_by_its_text(rt: HostRuntime) -> Result<(), Fail> {
    for (fault, want) in [
        (RunFault::Memory, "out of memory"),
        (RunFault::TooLong, "input too long"),
        (RunFault::Read, "read fault"),
        (RunFault::Write, "write fault"),
    ] {
        let text = format!(in rt.alloc(); "{fault}")?;
        assert_eq!(rt; text.as_str(), want);
    }
    Ok(())
}
