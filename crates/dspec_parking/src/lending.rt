ghost use Rattle.std.specs.Prelude.{◌≡◌, ◌+◌, ◌++◌, ◌<◌, ◌≤◌, length, slice_get, slice_range, Some};
ghost use Rattle.dspec_parking.specs.{Blocks.ParkingPlace, Parkings.StandsAt, Parkings.told_at, Parkings.with_kept, Stored.HasLength};

use crate::block_ring::BlockRing;
use crate::parked_block::ParkedBlock;

/// The bytes from one place to another of two slices in a row, in two parts.
fn parts_of<'a>(front: &'a [u8], back: &'a [u8], from: usize, to: usize) -> (&'a [u8], &'a [u8])
    requires order { from ≤ to }
    requires within { to ≤ length front.now + length back.now }
    ensures { result.0.now ++ result.1.now ≡ slice_range (front.now ++ back.now) from to }
{
    let end = front.len();
    if to <= end {
        (&front[from..to], &back[..0])
    } else if from < end {
        (&front[from..], &back[..to - end])
    } else {
        (&front[..0], &back[from - end..to - end])
    }
}

/// Copies two slices in a row.
fn copy_both(front: &[u8], back: &[u8], out: &mut [u8])
    requires { length out.old ≡ length front.now + length back.now }
    ensures { out.new ≡ front.now ++ back.now }
{
    let end = front.len();
    out[..end].copy_from_slice(front);
    out[end..].copy_from_slice(back);
}

impl BlockRing {
    /// What is told of the block that stands at a place.
    pub fn at(&self, place: usize) -> Option<ParkedBlock>
        ensures { result ≡ told_at (slice_get self.now.places place) }
    {
        match self.entries.get(place) {
            Some(entry) => {
                if entry.is_kept {
                    return None;
                }
                Some(ParkedBlock {
                    key: entry.key,
                    stamp: entry.stamp,
                    length: entry.length,
                })
            }
            None => None,
        }
    }

    /// The bytes of the block at a place, in two parts: up to the end of the ring, and from its beginning on.
    pub fn lend(&self, place: usize) -> (&[u8], &[u8])
        requires { place < length self.now.places }
        ensures { (p : ParkingPlace) → slice_get self.now.places place ≡ Some p → result.0.now ++ result.1.now ≡ p.block.bytes }
    {
        let Some(entry) = self.entries.get(place) else {
            unreachable!()
        };
        let from = entry.start.wrapping_sub(self.passed);
        let (front, back) = self.bytes.as_slices();
        parts_of(front, back, from, from + entry.length)
    }

    /// Copies the bytes of the block at a place.
    pub fn copy_to(&self, place: usize, out: &mut [u8])
        requires { HasLength place (length out.old) self.now }
        ensures { (p : ParkingPlace) → slice_get self.now.places place ≡ Some p → out.new ≡ p.block.bytes }
    {
        let (front, back) = self.lend(place);
        copy_both(front, back, out);
    }

    /// The block at a place is there no more; its place is, until the tail passes it.
    pub fn mark_kept(&mut self, place: usize)
        requires { place < length self.old.places }
        ensures { (p : ParkingPlace) → StandsAt place p self.old → self.new ≡ with_kept place p self.old }
    {
        if let Some(entry) = self.entries.get_mut(place) {
            entry.is_kept = true;
        }
    }
}
