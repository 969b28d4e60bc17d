//! The exports of a record by the words of its text: a claim is the record's EPID, and above 32 bits the widths of its fields, four bits
//! each. As many words as fit registers have an export of their own.

ghost use Rattle.std.specs.Prelude.{◌≡◌, ◌∷◌, [], ⊤};
ghost use Rattle.dspec_c.specs.{CpuCalls.OnCpu, CpuCalls.PutInTold, CpuCalls.PutTold, Handles.held_in, Handles.is_full};

use crate::handle::{Handle, lent};
use crate::held::HandleValue;
use crate::statuses::bad_handle;
use crate::word_counts::{AllWords, OneWord, ThreeWords, TwoWords};

/// Traces the record of a claim whose text is one word.
#[unsafe(no_mangle)]
pub extern "C" fn dspec_put_1(cpu: &mut Handle, claim: u64, stamp: u64, w0: u64) -> u32
    ensures answers { OnCpu (PutTold claim stamp (w0 ∷ []) result) ⊤ (held_in cpu.old) result (held_in cpu.new) }
    ensures stays { is_full cpu.new ≡ is_full cpu.old }
{
    lent!(cpu as Cpu(side), bad_handle() => side.put::<OneWord>(claim, stamp, &[w0]))
}

/// Traces the record of a claim whose text is two words.
#[unsafe(no_mangle)]
pub extern "C" fn dspec_put_2(cpu: &mut Handle, claim: u64, stamp: u64, w0: u64, w1: u64) -> u32
    ensures answers { OnCpu (PutTold claim stamp (w0 ∷ w1 ∷ []) result) ⊤ (held_in cpu.old) result (held_in cpu.new) }
    ensures stays { is_full cpu.new ≡ is_full cpu.old }
{
    lent!(cpu as Cpu(side), bad_handle() => side.put::<TwoWords>(claim, stamp, &[w0, w1]))
}

/// Traces the record of a claim whose text is three words.
#[unsafe(no_mangle)]
pub extern "C" fn dspec_put_3(
    cpu: &mut Handle,
    claim: u64,
    stamp: u64,
    w0: u64,
    w1: u64,
    w2: u64,
) -> u32
    ensures answers { OnCpu (PutTold claim stamp (w0 ∷ w1 ∷ w2 ∷ []) result) ⊤ (held_in cpu.old) result (held_in cpu.new) }
    ensures stays { is_full cpu.new ≡ is_full cpu.old }
{
    lent!(cpu as Cpu(side), bad_handle() => side.put::<ThreeWords>(claim, stamp, &[w0, w1, w2]))
}

/// Traces the record of a claim whose text is so many words.
#[unsafe(no_mangle)]
pub extern "C" fn dspec_put(cpu: &mut Handle, claim: u64, stamp: u64, words: &[u64]) -> u32
    ensures answers { OnCpu (PutTold claim stamp words.now result) ⊤ (held_in cpu.old) result (held_in cpu.new) }
    ensures stays { is_full cpu.new ≡ is_full cpu.old }
{
    lent!(cpu as Cpu(side), bad_handle() => side.put::<AllWords>(claim, stamp, words))
}

/// Offers the record of a claim whose text is one word, to a speculation.
#[unsafe(no_mangle)]
pub extern "C" fn dspec_put_in_1(cpu: &mut Handle, id: u64, claim: u64, stamp: u64, w0: u64) -> u32
    ensures answers { OnCpu (PutInTold id claim stamp (w0 ∷ []) result) ⊤ (held_in cpu.old) result (held_in cpu.new) }
    ensures stays { is_full cpu.new ≡ is_full cpu.old }
{
    lent!(cpu as Cpu(side), bad_handle() => side.put_in::<OneWord>(id, claim, stamp, &[w0]))
}

/// Offers the record of a claim whose text is two words, to a speculation.
#[unsafe(no_mangle)]
pub extern "C" fn dspec_put_in_2(
    cpu: &mut Handle,
    id: u64,
    claim: u64,
    stamp: u64,
    w0: u64,
    w1: u64,
) -> u32
    ensures answers { OnCpu (PutInTold id claim stamp (w0 ∷ w1 ∷ []) result) ⊤ (held_in cpu.old) result (held_in cpu.new) }
    ensures stays { is_full cpu.new ≡ is_full cpu.old }
{
    lent!(cpu as Cpu(side), bad_handle() => side.put_in::<TwoWords>(id, claim, stamp, &[w0, w1]))
}

/// Offers the record of a claim whose text is three words, to a speculation.
#[unsafe(no_mangle)]
pub extern "C" fn dspec_put_in_3(
    cpu: &mut Handle,
    id: u64,
    claim: u64,
    stamp: u64,
    w0: u64,
    w1: u64,
    w2: u64,
) -> u32
    ensures answers { OnCpu (PutInTold id claim stamp (w0 ∷ w1 ∷ w2 ∷ []) result) ⊤ (held_in cpu.old) result (held_in cpu.new) }
    ensures stays { is_full cpu.new ≡ is_full cpu.old }
{
    lent!(cpu as Cpu(side), bad_handle() => side.put_in::<ThreeWords>(id, claim, stamp, &[w0, w1, w2]))
}

/// Offers the record of a claim whose text is so many words, to a speculation.
#[unsafe(no_mangle)]
pub extern "C" fn dspec_put_in(
    cpu: &mut Handle,
    id: u64,
    claim: u64,
    stamp: u64,
    words: &[u64],
) -> u32
    ensures answers { OnCpu (PutInTold id claim stamp words.now result) ⊤ (held_in cpu.old) result (held_in cpu.new) }
    ensures stays { is_full cpu.new ≡ is_full cpu.old }
{
    lent!(cpu as Cpu(side), bad_handle() => side.put_in::<AllWords>(id, claim, stamp, words))
}
