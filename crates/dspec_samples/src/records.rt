ghost use Rattle.std.specs.Prelude.{◌≡◌, Some, slice_get};

use dspec_record::{Enablings, Field, Rec, SchemaFault};

/// How many kinds of records there are: EPIDs 1, 2 and 3.
pub const KINDS: u32 = 3;

/// What is enabled. Each record has its CPU and its number; those of EPID 2 stand at a multiple of 8, those of EPID 3 have a
/// third field. They have 12, 16 and 16 bytes.
pub fn enable() -> Result<Enablings, SchemaFault> {
    let mut enablings = Enablings::new();
    enablings.enable(&[Field::One, Field::Four])?;
    enablings.enable(&[Field::One, Field::Eight])?;
    enablings.enable(&[Field::One, Field::Four, Field::Two])?;
    Ok(enablings)
}

/// The record that a CPU offers by its call of this number, in one of the kinds, from 0: no other call offers an equal one.
pub fn record_of(cpu: u32, number: usize, kind: u32) -> Rec
    ensures cpu { slice_get result.values 0 ≡ Some cpu }
    ensures number { slice_get result.values 1 ≡ Some number }
{
    let (cpu, number) = (u64::from(cpu), number as u64);
    let made = match kind {
        0 => Rec::new(1, &[cpu, number]),
        1 => Rec::new(2, &[cpu, number]),
        _ => Rec::new(3, &[cpu, number, (number ^ 0x5a5a) % 65536]),
    };
    let Some(rec) = made else { unreachable!() };
    rec
}

/// Which call of its CPU offered the record; None where it has no such field.
pub fn number_of(rec: &Rec) -> Option<usize>
    ensures { result ≡ slice_get rec.now.values 1 }
{
    let number = rec.values().get(1)?;
    Some(*number as usize)
}
