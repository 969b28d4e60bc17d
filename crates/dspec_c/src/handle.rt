ghost use Rattle.std.specs.Prelude.{◌≡◌, Bool, true, false};
ghost use Rattle.dspec_c.specs.{Seals.seal_owns, Seals.kept_coded, declared.handle.HandleContents.HandleContents};

use crate::held::HandleValue;
use crate::parts::BoxParts;
use std::alloc::{AllocError, Global};
use std::marker::Model;
use std::mem;

/// A call on what a handle has, where that is of this kind; else the export answers so.
macro_rules! lent {
    ($handle:ident as $kind:ident($held:ident), $none:expr => $call:expr) => {{
        if !$handle.is_held() {
            return $none;
        }
        match &mut $handle.lend().held {
            HandleValue::$kind($held) => $call,
            _ => $none,
        }
    }};
}

pub(crate) use lent;

/// What is in a handle's box. Where that is let go, what was handed out goes home.
pub struct HandleContents {
    pub(crate) held: HandleValue,
}

impl Drop for HandleContents {
    fn drop(self) {
        let HandleContents { held } = self;
        held.let_go();
    }
}

impl HandleContents {
    ghost use Rattle.std.specs.Prelude.{◌≡◌};

    /// A box with room for what a handle can hold.
    pub(crate) fn room(alloc: Global) -> Result<Box<HandleContents>, AllocError> {
        let nothing = HandleContents {
            held: HandleValue::Nothing,
        };
        let Ok(room) = Box::new(alloc, nothing) else {
            return Err(AllocError);
        };
        Ok(room)
    }

    fn into_held(self) -> HandleValue
        ensures { result ≡ self.held }
    {
        let HandleContents { held } = self;
        held
    }
}

/// A box whose type names no other type, so that C can hold it; or room for one.
#[repr(C)]
struct Seal {
    at: *mut u8,
    alloc: Global,
    pub ghost full: { Bool },
    pub ghost inside: { HandleContents } by { kept_coded },
}

impl Model for Seal {
    ghost also_owns = { λ s. seal_owns s.full s.alloc s.at s.inside };
}

impl Seal {
    ghost use Rattle.std.specs.Prelude.{◌≡◌, true, false};

    fn blank(alloc: Global) -> Seal
        ensures { result.full ≡ false }
    {
        Seal {
            at: std::ptr::null_mut(),
            alloc,
        }
    }

    // Takes one apart that has no box.
    fn leave(self)
        requires { self.full ≡ false }
    {
        let Seal { at: _, alloc: _ } = self;
    }

    fn of_parts(parts: BoxParts<HandleContents, Global>) -> Seal
        ensures { (result.full ≡ true) × (result.inside ≡ parts.value) }
    {
        let BoxParts { at, alloc } = parts;
        Seal {
            at: at as *mut u8,
            alloc,
        }
    }

    fn into_parts(self) -> BoxParts<HandleContents, Global>
        requires { self.full ≡ true }
        ensures { result.value ≡ self.inside }
    {
        let Seal { at, alloc } = self;
        BoxParts {
            at: at as *mut HandleContents,
            alloc,
        }
    }
}

// C gives a handle to another thread, with what it holds.
unsafe impl Send for Seal {}

/// A box or nothing, as C holds it.
#[repr(C)]
pub struct Handle {
    held: bool,
    seal: Seal,
    ghost agrees: { seal.full ≡ held },
}

impl Handle {
    ghost use Rattle.std.specs.{Borrow.sem, Prelude.◌≡◌, Prelude.is_some, Prelude.true, Prelude.false, Prelude.IfSome};
    ghost use Rattle.dspec_c.specs.{Handles.held_in, Handles.is_full, Lending.LendsInside};

    /// Whether something is in the handle.
    pub(crate) fn is_held(&self) -> bool
        ensures { result ≡ is_full self.now }
    {
        self.held
    }

    /// What is in the handle, for a call; the handle stays full.
    pub(crate) fn lend(&mut self) -> &mut HandleContents
        requires { is_full self.old ≡ true }
        ensures* writes_back { sem 𝓛 (LendsInside self.entry result) }
        ensures value { result.now.held ≡ held_in self.old }
    {
        unsafe { &mut *(self.seal.at as *mut HandleContents) }
    }

    /// Fills the handle, which was empty.
    pub(crate) fn put(&mut self, room: Box<HandleContents>, what: HandleValue)
        requires { is_full self.old ≡ false }
        ensures full { is_full self.new ≡ true }
        ensures holds { held_in self.new ≡ what }
    {
        let mut room = room;
        *room = HandleContents { held: what };
        let filled = Handle {
            held: true,
            seal: Seal::of_parts(BoxParts::of(room)),
        };
        let Handle { held: _, seal } = mem::replace(self, filled);
        seal.leave();
    }

    /// What is in the handle, which is empty then, and the room that it leaves.
    pub(crate) fn take(&mut self, alloc: Global) -> Option<(HandleValue, Box<HandleContents>)>
        ensures was { is_some result ≡ is_full self.old }
        ensures held { IfSome result (λ r. r.0 ≡ held_in self.old) }
        ensures empty { is_full self.new ≡ false }
    {
        let Handle { held, seal } = mem::replace(
            self,
            Handle {
                held: false,
                seal: Seal::blank(alloc),
            },
        );
        if !held {
            seal.leave();
            return None;
        }
        let mut room = seal.into_parts().into_box();
        let nothing = HandleContents {
            held: HandleValue::Nothing,
        };
        let was = mem::replace(&mut *room, nothing);
        Some((was.into_held(), room))
    }
}
