ghost use Rattle.std.specs.Prelude.{◌≡◌};
ghost use Rattle.dspec_parking.specs.Parkings.{ExpiresBlocks, ParksBlock, TakesInto};

use crate::parked::Parked;
use crate::parked_block::ParkedBlock;
use crate::parking::Parking;
use crate::parking_counts::ParkingCounts;
use crate::parking_key::ParkingKey;
use crate::passed_places::PassedPlaces;

impl Parking {
    /// A block is parked: copied into the ring, as the newest. The oldest make room for it.
    pub fn park(&mut self, key: ParkingKey, stamp: u64, bytes: &[u8]) -> Parked
        ensures { ParksBlock (record { key = key; stamp = stamp; bytes = bytes.now }) result self.old self.new }
    {
        if !self.ring.can_hold(bytes.len()) {
            return Parked::Refused;
        }
        if self.parked == u64::MAX {
            return Parked::Worn;
        }
        let gone = self.ring.make_room(bytes.len());
        self.ring.push(key, stamp, bytes);
        self.evicted += gone.blocks as u64;
        self.parked += 1;
        Parked::Stands(gone)
    }

    /// The block that stands at a place comes out, into the first bytes of `out`: it is kept. None: no block stands there, or it is longer than `out`.
    pub fn take(&mut self, place: usize, out: &mut [u8]) -> Option<ParkedBlock>
        ensures { TakesInto place result out.old out.new self.old self.new }
    {
        let block = self.ring.at(place)?;
        if out.len() < block.length {
            return None;
        }
        self.ring.copy_to(place, &mut out[..block.length]);
        self.ring.mark_kept(place);
        self.kept += 1;
        Some(block)
    }

    /// The oldest expire, up to the first whose stamp isn't before this one. It looks at no more than so many places.
    pub fn expire(&mut self, before: u64, most: usize) -> PassedPlaces
        ensures { ExpiresBlocks before most result self.old self.new }
    {
        let gone = self.ring.pass_old(before, most);
        self.expired += gone.blocks as u64;
        gone
    }

    /// The ring goes. What stands there is left.
    pub fn leave(self) -> ParkingCounts
        ensures { result ≡ self.counts }
    {
        self.counts()
    }
}
