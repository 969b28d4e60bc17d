ghost use Rattle.std.specs.Prelude.{◌≡◌, ◌/◌, ◌%◌, ◌^◌, ◌<◌};
ghost use Rattle.dspec_word.specs.SpecId.{Speculation, id_number, no_speculation};

use std::fmt;
use std::marker::Model;

/// The identifier of one speculation: a slot, and how often the slot was released before.
/// Its number is `issue * 64 + slot`, and identifiers compare as their numbers. Slots are numbered
/// from 1, so 0 names no speculation, as in the Solaris Dynamic Tracing Guide.
#[derive(Clone, Copy, Debug, PartialEq, Eq, PartialOrd, Ord, Hash)]
pub struct SpecId {
    issue: u64,
    slot: u32,
}

impl Model for SpecId {
    ghost use Rattle.std.specs.Prelude.{◌<◌, ◌^◌};
    ghost use Rattle.dspec_word.specs.SpecId.{Speculation};

    ghost Value = { Speculation };

    ghost view = { λ id. record { issue = id.issue; slot = id.slot } };

    ghost invariant = { λ id. (id.issue < 2 ^ 58) × (id.slot < 64) };

    ghost inverse = { λ s. record { issue = s.issue; slot = s.slot } };
}

impl SpecId {
    /// No speculation: number 0. It may be passed to every call that takes an identifier.
    pub const NONE: SpecId = SpecId { issue: 0, slot: 0 };

    /// The identifier of a slot's speculation at an issue.
    pub fn of(issue: u64, slot: u32) -> SpecId
        requires issue { issue < 2 ^ 58 }
        requires slot { slot < 64 }
        ensures { result ≡ record { issue = issue; slot = slot } }
    {
        SpecId { issue, slot }
    }

    /// The identifier of a number. Every number is that of exactly one.
    pub fn from_raw(raw: u64) -> SpecId
        ensures number { id_number result ≡ raw }
        ensures slot { result.slot < 64 }
        ensures found { (id : Speculation) → id.slot < 64 → id_number id ≡ raw → result ≡ id }
    {
        SpecId {
            issue: raw / 64,
            slot: (raw % 64) as u32,
        }
    }

    /// The number of the identifier.
    pub fn raw(self) -> u64
        ensures { result ≡ id_number self }
    {
        64 * self.issue + u64::from(self.slot)
    }

    /// The slot, which need not be one of the session's.
    pub fn slot(self) -> u32
        ensures value { result ≡ self.slot }
        ensures small { result < 64 }
        ensures remainder { result ≡ id_number self % 64 }
    {
        self.slot
    }

    /// How often the slot was released before this speculation.
    pub fn issue(self) -> u64
        ensures value { result ≡ self.issue }
        ensures small { result < 2 ^ 58 }
        ensures quotient { result ≡ id_number self / 64 }
    {
        self.issue
    }
}

impl Default for SpecId {
    ghost is_default = { λ id. id ≡ no_speculation };

    fn default() -> Self {
        SpecId::NONE
    }
}

/// The number of the identifier.
impl fmt::Display for SpecId {
    fn fmt<W: fmt::Write>(&self, f: &mut fmt::Formatter<W>) -> fmt::Result {
        let number = self.raw();
        write!(f, "{number}")
    }
}
