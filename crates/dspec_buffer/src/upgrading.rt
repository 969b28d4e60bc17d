ghost use Rattle.std.specs.Prelude.{◌≡◌, ◌↔◌, [], IfOk, IfErr, IsOk, OnErr};
ghost use Rattle.dspec_buffer.specs.Upgrading.{IsUpgradable, IsUpgraded, StopsUpgrade};

use crate::{ByteBuffer, ReadFault, TraceBuffer, read_all};
use dspec_record::{Enablings, Header, Rec};
use std::error::Error;
use std::fmt;

/// Why a text isn't upgraded. What can't be read is told before what doesn't fit, wherever the two stand.
#[derive(Debug, Clone, Copy, PartialEq, Eq)]
pub enum UpgradeFault {
    /// The text isn't one of records without a stamp; as `read_all` tells it.
    Read(ReadFault),
    /// The record of this number, counted from 0, is the first that doesn't fit.
    Full(u32),
}

impl Error for UpgradeFault {}

impl fmt::Display for UpgradeFault {
    fn fmt<W: fmt::Write>(&self, f: &mut fmt::Formatter<W>) -> fmt::Result {
        match self {
            UpgradeFault::Read(fault) => write!(f, "{fault}"),
            UpgradeFault::Full(number) => write!(f, "no room for record {number}"),
        }
    }
}

/// Reads a text of records without a stamp and writes each of them, with this stamp, after the others into an
/// empty buffer. Answers how many there are. The buffer is empty where the answer is a fault. Takes no memory.
pub fn upgrade(
    old: &Enablings,
    text: &[u8],
    stamp: u64,
    to: &mut ByteBuffer,
) -> Result<u32, UpgradeFault>
    requires version { old.now.header ≡ Header.One }
    requires empty { ⟦<ByteBuffer as TraceBuffer<Enablings>>⟧.has to.old old.now [] }
    ensures exactly { IsOk result ↔ IsUpgradable old.now stamp text.now to.old.size }
    ensures upgraded { IfOk result (λ n. IsUpgraded old.now stamp text.now to.new n) }
    ensures fault { IfErr result (λ e. StopsUpgrade old.now stamp text.now to.old.size e) }
    ensures size { to.new.size ≡ to.old.size }
    ensures emptied { OnErr result (to.new ≡ record { text = []; count = 0; size = to.old.size }) }
{
    let records = match read_all(old, text) {
        Ok(records) => records,
        Err(fault) => return Err(UpgradeFault::Read(fault)),
    };
    let stamped = old.stamped();
    for rec in records {
        let Some(rec) = Rec::stamped(rec.epid(), stamp, rec.values()) else {
            unreachable!()
        };
        if !to.push(&stamped, &rec) {
            let number = to.count();
            to.clear();
            return Err(UpgradeFault::Full(number));
        }
    }
    Ok(to.count())
}
