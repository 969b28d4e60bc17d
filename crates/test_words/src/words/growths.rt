//! Memory that is refused while a session starts. The gate refuses one growth after another (`tests/refused-growth`).
use super::*;

/// As many CPUs and slots as a session has at the most.
fn largest() -> Config {
    Config {
        cpus: 64,
        nspec: 63,
        ..small()
    }
}

/// Starts the largest session; refused for want of memory, it asks once more.
fn asked_again(alloc: Global) -> Result<(Words, Vec<CpuSeat>, ConsumerSeat), StartFault> {
    match Words::start(alloc, &largest()) {
        Err(StartFault::Memory) => Words::start(alloc, &largest()),
        started => started,
    }
}

#[test]
fn refused_growth(rt: HostRuntime) {
    let seats = match asked_again(rt.alloc()) {
        Ok((_words, seats, _consumer)) => seats.len(),
        Err(_) => 0,
    };
    assert!(rt; seats == 64);
}

/// It asks once: where a growth is refused the answer is Memory and no other fault.
#[test]
fn asked_once(rt: HostRuntime) -> Result<(), Fail> {
    match Words::start(rt.alloc(), &largest()) {
        Ok((_words, seats, _consumer)) => {
            assert!(rt; seats.len() == 64);
            Ok(())
        }
        Err(StartFault::Memory) => Err(AllocError.into()),
        Err(_) => Err("a fault that isn't there".into()),
    }
}
