ghost use Rattle.std.specs.Prelude.{◌≡◌, ◌≤◌, ◌+◌, ◌<◌, ◌^◌, ◌++◌, List, None, Some, length, reverse};
ghost use Rattle.dspec_deeds.specs.declared.deed.Deed.{Deed};
ghost use Rattle.dspec_table.specs.Seats.{known};
ghost use Rattle.dspec_cpu.specs.Lists.{IsSameCpu, batches_of, config_of, end_of, held_back_of, number_in, seat_of, spare_count};
ghost use Rattle.dspec_cpu.specs.Sealed.{waiting};
ghost use Rattle.dspec_cpu.specs.Switching.{FindsSpare, HandsOn, Heeds, IsSameBeside, Switches, buffers_of, emptied, most_moves, with_seal};

use crate::callable::Callable;
use crate::cpu::Cpu;
use crate::listed::Listed;
use crate::parts::CpuParts;
use crate::settling::serve;
use dspec_buffer::ByteBuffer;
use dspec_cpu_state::CpuState;
use dspec_record::Schema;
use dspec_ring::{Batch, CpuEnd};
use dspec_table::Words;

// Hands on a batch, by one push. The answer is the batch where the ring refuses it.
#[inline(always)]
fn hand_over(end: &mut CpuEnd, batch: Batch) -> Option<Batch>
    requires few { length end.old.handed < 2 ^ 62 }
    ensures { HandsOn end.old (Some batch) end.new result }
{
    end.hand(batch).err()
}

// Hands on the batch held back, by one push. It stays held back where the ring refuses it.
fn hand_on(end: &mut CpuEnd, held_back: &mut Option<Batch>)
    requires few { length (waiting held_back.old ++ reverse end.old.handed) ≤ 2 ^ 62 }
    ensures { HandsOn end.old held_back.old end.new held_back.new }
{
    // asked first by itself: what is taken out is moved, though it is none
    if held_back.is_none() {
        return;
    }
    let Some(batch) = held_back.take() else {
        return;
    };
    *held_back = hand_over(end, batch);
}

// Takes the buffer that is active next: the spare in hand, or by one pop the next that was given back. A batch of another size
// is dropped.
fn take_spare(end: &mut CpuEnd, spare: &mut Option<ByteBuffer>, bufsize: u32) -> Option<ByteBuffer>
    ensures found { FindsSpare bufsize end.old spare.old end.new result }
    ensures taken { spare.new ≡ None }
{
    if spare.is_some() {
        return spare.take();
    }
    let came = end.spare()?;
    let Batch { buffer, .. } = came;
    if buffer.size() != bufsize {
        return None;
    }
    Some(buffer)
}

// Seals the active buffer: the spare, cleared, is active, and the one that was active a batch.
fn seal<S: Schema>(cpu: u32, side: &mut CpuState<ByteBuffer>, mut spare: ByteBuffer) -> Batch
    requires seals { side.old.seals + 1 < 2 ^ 64 }
    ensures batch { result ≡ record { cpu = cpu; drops = side.old.drops; buffer = side.old.active } }
    ensures side { side.new ≡ record side.old { seals = side.old.seals + 1; active = emptied spare; drops = 0 } }
{
    spare.clear();
    let drops = side.seal::<S>(&mut spare);
    Batch {
        cpu,
        drops,
        buffer: spare,
    }
}

impl<S: Schema> CpuParts<S> {
    // Heeds an ask that was shown: where it is for a batch that isn't sealed yet, a Seal is left and there is a spare, the active
    // buffer is sealed and handed on, and the spare is active. Never while a batch is held back, which none may replace.
    fn heed(&mut self, ask: u64) -> bool
        requires count { length (batches_of self.old) ≡ self.old.side.seals }
        requires most { self.old.config.max_calls ≤ 2 ^ 62 }
        requires few { length (batches_of self.old) + spare_count self.old.spare ≤ 1 + length self.old.end.spares }
        ensures beside { IsSameBeside self.old self.new × (self.new.seat ≡ self.old.seat) }
        ensures heeds { Heeds self.old.config self.old.cpu ask (buffers_of self.old) result (buffers_of self.new) }
    {
        if ask <= self.side.seals || self.config.max_calls <= self.side.seals {
            return false;
        }
        let found = take_spare(&mut self.end, &mut self.spare, self.config.bufsize);
        if self.held_back.is_some() {
            self.spare = found;
            return false;
        }
        let Some(spare) = found else {
            return false;
        };
        let batch = seal::<S>(self.cpu, &mut self.side, spare);
        if let Some(back) = hand_over(&mut self.end, batch) {
            self.held_back = Some(back);
        }
        true
    }

    /// Switches the principal buffers, as the Guide's policy "switch" has it: a batch whose hand-over was refused is handed on
    /// first; then, where the consumer asked for a batch that isn't sealed yet, the active buffer is sealed and handed on, and
    /// a spare one is active. Answers whether it sealed. Under policy "fill" it does nothing.
    pub(crate) fn switch(&mut self, words: &Words) -> bool
        requires ready { ⟦<CpuParts<S> as Callable>⟧.is_ready words.now self.old }
        ensures ready { ⟦<CpuParts<S> as Callable>⟧.is_ready words.now self.new }
        ensures same { IsSameCpu self.old self.new }
        ensures beside { IsSameBeside self.old self.new }
        ensures bounded { (known (seat_of self.new)).steps ≤ (known (seat_of self.old)).steps + 1 }
        ensures moves { (end_of self.new).moves ≤ (end_of self.old).moves + most_moves (held_back_of self.old) }
        ensures switches { Switches (config_of self.old) (number_in self.old) (known (seat_of self.old)) (buffers_of self.old) result (known (seat_of self.new)) (buffers_of self.new) }
        ensures list { (p : List Deed) → ⟦<Cpu<S> as Listed>⟧.has_list self.old p → ⟦<Cpu<S> as Listed>⟧.has_list self.new (with_seal result (number_in self.old) p) }
    {
        if self.config.policy.is_fill() {
            return false;
        }
        hand_on(&mut self.end, &mut self.held_back);
        let ask = self.seat.load_ask(words, &serve(false, 0, false));
        self.heed(ask)
    }
}
