use atomic_table::{Seat, Table, TableRule};
use dspec_deeds::{Actor, Config, CpuOp, Deed};
use std::alloc::Global;
use std::collections::LinkedList;

/// What a seat knows: whose it is (a note is nobody's), its own deeds, those of the seats that were joined into it, the deeds
/// of all that it has seen, what a note told it since its last step, its call in flight, how many steps it made and on which
/// words, and the asks of each CPU, which the consumer knows exactly, and any other seat as no more than they are; and what the
/// seats joined into it knew then. No value of it is ever made.
pub struct View {
    /// What the words were set up with.
    pub config: Config,
    /// Whose seat it is; none for a note.
    pub who: Option<Actor>,
    /// Its own deeds, the latest first.
    pub own: LinkedList<Deed>,
    /// Whose the seats were that were joined into it, with their deeds.
    pub also: LinkedList<(Option<Actor>, LinkedList<Deed>)>,
    /// The deeds of all that it has seen.
    pub seen: LinkedList<Deed>,
    /// What a note told it since its last step.
    pub told: LinkedList<Deed>,
    /// The call in flight: a load of activity showed it that the session runs, and it hasn't ended.
    pub flight: Option<CpuOp>,
    /// How many steps it has made.
    pub steps: u64,
    /// The places of the words that its steps were on, the latest first.
    pub touched: LinkedList<u64>,
    /// The asks of the CPUs, in order.
    pub asks: LinkedList<u64>,
    /// What each seat joined into it knew.
    pub past: LinkedList<Past>,
}

/// What a seat knew when it was joined into another, for good: whose it was, its own deeds, what it had seen, and the asks.
pub struct Past {
    /// Whose seat it was.
    pub who: Option<Actor>,
    /// Its own deeds.
    pub own: LinkedList<Deed>,
    /// What it had seen.
    pub seen: LinkedList<Deed>,
    /// The asks that it knew of.
    pub asks: LinkedList<u64>,
}

/// The rule of the words: there is one list of deeds that they show, and of which each seat knows its own part.
pub struct OneList;

impl TableRule<u8, View, Config> for OneList {
    ghost use Rattle.dspec_table.specs.Rule.{WordsRule, newcomer};

    ghost holds = { WordsRule };

    ghost first = { newcomer };
}

// The table has no slots for values; the type of theirs is any.
pub(crate) type Board = Table<u8, View, Config, OneList, Global>;

// A seat at the words, whoever's: a CPU's, the consumer's, or a note's.
pub(crate) type AnySeat = Seat<u8, View>;
