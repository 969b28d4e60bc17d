ghost use Rattle.std.specs.Prelude.{◌≡◌, ◌≤◌, ◌+◌, ◌++◌, [], ◌∷◌, List, IfNone, IfOk, IfSome, MatchOption, MatchResult, length};
ghost use mathlib.Core.List.{IsPrefix};
ghost use Rattle.dspec.specs.declared.handing.Handed.{Handed};
ghost use Rattle.dspec_threads.specs.Belts.{coming_to, given_by, given_onto, handed_of, room_of_belt, taken_by, taken_from_belt};

use dspec::{Handed, Path};
use rtrb::{Consumer, Producer, RingBuffer};
use std::alloc::{AllocError, Global};

/// The end that gives paths. It can move to another thread.
#[derive(Drop)]
pub struct Giver {
    pub(crate) going: Producer<Handed, Global>,
}

/// The end that takes them up. It can move to another thread.
#[derive(Drop)]
pub struct Taker {
    pub(crate) coming: Consumer<Handed, Global>,
}

/// Both ends of a belt with room for so many paths. Takes all memory that they will need. A session has at most as many paths as it has
/// slots (`nspec`), so a belt with that room is never full of paths that are open.
pub fn belt(alloc: Global, room: usize) -> Result<(Giver, Taker), AllocError>
    ensures ends { IfOk result (λ r. taken_from_belt r.1 ≡ given_onto r.0) }
    ensures unused { IfOk result (λ r. (given_by r.0 ≡ []) × (taken_by r.1 ≡ [])) }
    ensures room { IfOk result (λ r. room_of_belt r.0 ≡ room) }
{
    let (going, coming) = RingBuffer::<Handed>::new(alloc, room)?;
    Ok((Giver { going }, Taker { coming }))
}

impl Giver {
    /// Gives a path, after those that were given. It comes back, and nothing was given, where the belt is full, as far as this end
    /// can see.
    #[inline]
    pub fn give(&mut self, path: Path) -> Result<(), Path>
        ensures belt { given_onto self.new ≡ given_onto self.old }
        ensures given { MatchResult result (λ _. given_by self.new ≡ given_by self.old ++ handed_of path ∷ []) (λ back. (back ≡ path) × (given_by self.new ≡ given_by self.old)) }
        ensures room { MatchResult result (λ _. room_of_belt self.old ≤ room_of_belt self.new + 1) (λ _. room_of_belt self.old ≡ 0) }
    {
        if self.going.is_full() {
            return Err(path);
        }
        self.going.push_reserved(path.hand());
        Ok(())
    }
}

impl Taker {
    /// The next path, in the order in which they were given; None where none is there, as far as this end can see. Its `opening` answers
    /// as after `Path::take`.
    #[inline]
    pub fn take(&mut self) -> Option<Path>
        ensures belt { taken_from_belt self.new ≡ taken_from_belt self.old }
        ensures taken { MatchOption result (taken_by self.new ≡ taken_by self.old) (λ path. taken_by self.new ≡ taken_by self.old ++ handed_of path ∷ []) }
        ensures next { IfSome result (λ path. IsPrefix (coming_to self.old) (handed_of path ∷ coming_to self.new)) }
        ensures empty { IfNone result (coming_to self.old ≡ []) }
    {
        match self.coming.pop() {
            Ok(handed) => Some(Path::take(handed)),
            Err(_) => None,
        }
    }

    /// How many paths were given and not taken, where both ends are in one thread again: what was taken, and then these, is just
    /// what was given.
    pub fn left(&mut self, giver: &mut Giver) -> usize
        requires { taken_from_belt self.old ≡ given_onto giver.old }
        ensures belt { (given_onto giver.new ≡ given_onto giver.old) × (taken_from_belt self.new ≡ taken_from_belt self.old) }
        ensures same { (given_by giver.new ≡ given_by giver.old) × (taken_by self.new ≡ taken_by self.old) }
        ensures rest { (rest : List Handed) × (taken_by self.new ++ rest ≡ given_by giver.new) × (result ≡ length rest) }
    {
        self.coming.slots_beside(&mut giver.going)
    }
}
