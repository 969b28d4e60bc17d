ghost use Rattle.std.specs.Prelude.{◌≡◌, length};
ghost use Rattle.dspec_table.specs.Seats.{set_up};
ghost use Rattle.dspec_cpu.specs.Lists.{words_of};
ghost use Rattle.dspec_session_core.specs.{Finish.FinishByOneList, Finish.FinishCloses, Finish.FinishKeeps, Finish.FinishPromises, Sessions.IsSession};

use crate::closed::Closed;
use crate::consumer::Consumer;
use crate::parting::{all_stand, part_all};
use crate::session::Session;
use dspec_cpu::{Cpu, Listed};
use dspec_record::Schema;

impl<S: Schema> Session<S> {
    /// Ends the session, once none of its calls is under way: the CPUs settle what was decided and waits for them, and what nobody
    /// took is handed out with their reports. It takes no memory.
    pub fn finish(self) -> Closed
        requires session { (schema : S) × IsSession schema self }
        ensures all { length result ≡ (set_up (words_of self.shared)).cpus }
        ensures keeps { (schema : S) → IsSession schema self
            → FinishKeeps S.shape_of S.accepted S.text schema self result }
        ensures closed { (schema : S) → IsSession schema self
            → FinishCloses S.shape_of S.accepted S.text ⟦<Cpu<S> as Listed>⟧.has_list schema self result }
        ensures promised { (schema : S) → IsSession schema self
            → FinishPromises S.shape_of S.accepted S.text schema self result }
        ensures one_list { (schema : S) → IsSession schema self
            → FinishByOneList S.shape_of S.accepted S.text ⟦<Cpu<S> as Listed>⟧.has_list schema self result }
    {
        let Session {
            shared,
            cpus,
            consumer,
        } = self;
        all_stand(&cpus);
        let Consumer {
            config: _,
            seat,
            ends,
            seats,
            parted,
            left,
        } = consumer;
        let (_last, mut left) = part_all(
            shared.into_words(),
            cpus,
            ends,
            seats,
            parted,
            seat,
            left,
        );
        left.reverse();
        Closed { left }
    }
}
