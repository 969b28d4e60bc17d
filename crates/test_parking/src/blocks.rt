//! Rings of a few bytes.
use dspec_parking::{Parked, ParkedBlock, Parking, ParkingCounts, ParkingKey, PassedPlaces};
use std::fmt::Debug;
use std::process::Abort;
use std::test::Fail;

/// Asserts that what was found is what is wanted.
fn same<T: PartialEq + Debug + Drop>(rt: &impl Abort, found: T, wanted: T) {
    assert_eq!(rt; found, wanted);
}

/// A key by its last eight bytes.
fn key(low: u64) -> ParkingKey {
    ParkingKey { high: 7, low }
}

/// It is parked; so many places made room, and so many blocks were evicted.
fn stands(places: usize, blocks: usize) -> Parked {
    Parked::Stands(PassedPlaces { places, blocks })
}

/// What is told of a block.
fn told(low: u64, stamp: u64, length: usize) -> Option<ParkedBlock> {
    Some(ParkedBlock {
        key: key(low),
        stamp,
        length,
    })
}

/// A block comes out whole, under its key, once; also where it goes on at the beginning of the ring.
#[test]
fn whole_and_once(rt: HostRuntime) -> Result<(), Fail> {
    let mut parking = Parking::new(rt.alloc(), 10, 4)?;
    let mut out = [0; 8];
    same(&rt, parking.park(key(1), 5, b"first"), stands(0, 0));
    same(&rt, parking.park(key(2), 6, b"two"), stands(0, 0));
    same(&rt, parking.park(key(3), 7, b"again"), stands(1, 1));
    same(&rt, parking.at(1), told(3, 7, 5));
    same(&rt, parking.take(1, &mut out), told(3, 7, 5));
    same(&rt, out, *b"again\0\0\0");
    same(&rt, parking.at(1), None);
    same(&rt, parking.take(1, &mut out), None);
    same(&rt, parking.take(0, &mut out[..2]), None);
    same(&rt, parking.take(0, &mut out), told(2, 6, 3));
    same(&rt, out, *b"twoin\0\0\0");
    same(&rt, parking.at(2), None);
    Ok(())
}

/// The oldest make room, as few as serve. One that was kept isn't evicted.
#[test]
fn oldest_first(rt: HostRuntime) -> Result<(), Fail> {
    let mut parking = Parking::new(rt.alloc(), 12, 3)?;
    let mut out = [0; 4];
    same(&rt, parking.park(key(1), 1, b"aaaa"), stands(0, 0));
    same(&rt, parking.park(key(2), 2, b"bbbb"), stands(0, 0));
    same(&rt, parking.park(key(3), 3, b"cc"), stands(0, 0));
    same(&rt, parking.take(1, &mut out), told(2, 2, 4));
    same(&rt, parking.park(key(4), 4, b"d"), stands(1, 1));
    same(&rt, parking.park(key(5), 5, b"eeeee"), stands(1, 0));
    same(&rt, parking.at(0), told(3, 3, 2));
    same(&rt, parking.at(2), told(5, 5, 5));
    let counts = ParkingCounts {
        parked: 5,
        kept: 1,
        evicted: 1,
        expired: 0,
        standing: 3,
    };
    same(&rt, parking.counts(), counts);
    Ok(())
}

/// What can't be held is refused, and nothing is evicted for it. A block of the ring's size is held, and one of no bytes.
#[test]
fn refused(rt: HostRuntime) -> Result<(), Fail> {
    let mut parking = Parking::new(rt.alloc(), 4, 2)?;
    same(&rt, parking.park(key(1), 1, b""), stands(0, 0));
    same(&rt, parking.park(key(2), 2, b"12345"), Parked::Refused);
    same(&rt, parking.places(), 1);
    same(&rt, parking.park(key(3), 3, b"1234"), stands(0, 0));
    same(&rt, parking.places(), 2);
    let mut none = Parking::new(rt.alloc(), 4, 0)?;
    same(&rt, none.park(key(1), 1, b"1"), Parked::Refused);
    Ok(())
}

/// The oldest expire, a turn at a time, up to the first that is young. What stands at the end is left.
#[test]
fn expired_and_left(rt: HostRuntime) -> Result<(), Fail> {
    let mut parking = Parking::new(rt.alloc(), 8, 8)?;
    for stamp in [1, 2, 5, 3] {
        same(&rt, parking.park(key(stamp), stamp, b"xy"), stands(0, 0));
    }
    let mut out = [0; 2];
    same(&rt, parking.take(1, &mut out), told(2, 2, 2));
    let one = PassedPlaces {
        places: 1,
        blocks: 1,
    };
    same(&rt, parking.expire(5, 1), one);
    let kept = PassedPlaces {
        places: 1,
        blocks: 0,
    };
    same(&rt, parking.expire(5, 8), kept);
    same(&rt, parking.at(0), told(5, 5, 2));
    let counts = ParkingCounts {
        parked: 4,
        kept: 1,
        evicted: 0,
        expired: 1,
        standing: 2,
    };
    same(&rt, parking.leave(), counts);
    Ok(())
}
