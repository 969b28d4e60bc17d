//! What follows from the definitions, as a clause of a function that has nothing to do.

ghost use Rattle.std.specs.Prelude.{◌≡◌, ◌≤◌, List, None, length, true};
ghost use Rattle.dspec_ctf.specs.InMemory.{Batches.HaveAllLeft, Batches.MissesAsBefore, Batches.OpensWithoutMemory, Batches.PutsPackets, Batches.PutsWithoutMemory, Calls.IsAllHanded};
ghost use Rattle.dspec_ctf.specs.InMemory.{Calls.emptied_in, Calls.has_no_rest, Filing.CpuFiling, Filing.FilingRoom};
ghost use Rattle.dspec_ctf.specs.declared.in_memory.packet.Packet.{Packet};

/// From the opening of a batch on, the packets that are handed out until there is none have all its records, in their order, each in one
/// packet: they are those of runs one after another. (That runs have all records once is the law `runs_have_all`.)
pub fn packets_have_all()
    ensures { (f new : CpuFiling) (ps : List Packet) → f.run ≡ None → f.place ≤ length f.records
        → PutsPackets f ps new → IsAllHanded new → HaveAllLeft f ps new }
{}

/// With room for batches of so many bytes, which `reserve` takes and which never gets less, no call on a batch of that size or less wants memory: it is opened, and
/// what is put of it is told, without any.
pub fn reserved_rooms_suffice()
    ensures open { OpensWithoutMemory }
    ensures put { PutsWithoutMemory }
{}

/// Where rooms are exchanged, as much counts as missed later as without that.
pub fn swapped_rooms_miss_nothing()
    ensures { (f : CpuFiling) (room : FilingRoom) → has_no_rest f ≡ true → f.from ≤ f.place → MissesAsBefore f (emptied_in room f) }
{}
