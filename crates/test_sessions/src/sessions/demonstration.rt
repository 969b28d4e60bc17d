//! The demonstration, in four threads: nobody held back, two CPUs that wait for each other, and gates that are shut.
use super::demonstrated::{Returned, comes_to};
use dspec_session::{DemoFault, DemoLine, Free, Gate, demo};
use std::sync::atomic::{AtomicU64, Ordering};
use std::test::Fail;

/// The line of a CPU that made all its calls.
fn finished(cpu: u32) -> DemoLine {
    DemoLine {
        cpu,
        offered: 200,
        balanced: true,
        ordered: true,
    }
}

/// The lines of four CPUs that did.
fn all_finished() -> [DemoLine; 4] {
    [finished(0), finished(1), finished(2), finished(3)]
}

#[test]
fn threads_demo(rt: HostRuntime) -> Result<(), Fail> {
    assert!(rt; demo(&rt, rt.alloc(), &Free) == Ok(all_finished()));
    Ok(())
}

/// CPUs 0 and 1 each wait before their first call until the other is there too. It counts the calls that returned.
#[derive(Drop)]
struct Meeting {
    here: [AtomicU64; 2],
    returned: Returned,
}

impl Gate for Meeting {
    fn before(&self, cpu: u32, call: u32) -> bool {
        if call != 1 || cpu > 1 {
            return true;
        }
        self.here[cpu as usize].store(1, Ordering::SeqCst);
        comes_to(&self.here[1 - cpu as usize], 1)
    }

    fn after(&self, cpu: u32, _call: u32) {
        self.returned.count(cpu);
    }
}

#[test]
fn gated_demo(rt: HostRuntime) -> Result<(), Fail> {
    let gate = Meeting {
        here: [AtomicU64::new(0), AtomicU64::new(0)],
        returned: Returned::none(),
    };
    assert!(rt; demo(&rt, rt.alloc(), &gate) == Ok(all_finished()));
    for calls in &gate.returned.calls {
        assert!(rt; calls.load(Ordering::SeqCst) == 500);
    }
    Ok(())
}

/// Shut for the CPUs from this number on, at this call.
#[derive(Drop)]
struct Shut {
    cpu: u32,
    call: u32,
}

impl Gate for Shut {
    fn before(&self, cpu: u32, call: u32) -> bool {
        cpu < self.cpu || call != self.call
    }

    fn after(&self, _cpu: u32, _call: u32) {}
}

#[test]
fn shut_gate(rt: HostRuntime) -> Result<(), Fail> {
    let always = Shut { cpu: 0, call: 1 };
    assert!(rt; demo(&rt, rt.alloc(), &always) == Err(DemoFault::GateShut));
    let last_call_of_the_last = Shut { cpu: 3, call: 500 };
    assert!(rt; demo(&rt, rt.alloc(), &last_call_of_the_last) == Err(DemoFault::GateShut));
    Ok(())
}
