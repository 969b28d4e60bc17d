ghost use Rattle.std.specs.Prelude.{◌≡◌, ◌<◌, true};
ghost use Rattle.dspec_paths.specs.{Counts.counted_discard, Counts.counted_end, Counts.counted_loss, Counts.counted_in, Counts.has_part_at, Open.places_of, Table.CommitsNewest, Table.CommitsOlder};
ghost use Rattle.dspec_paths.specs.{Table.CommitsOlderPart, Table.CommitsOrWaits, Table.copied_by, Table.DiscardsPath, Table.KeepsPart, Table.KeepsRest, Table.IsNamed, Table.KeepsPath};
ghost use Rattle.dspec_paths.specs.{Table.loses_block, Table.LosesPath, Table.thrown_by};

use crate::open_path::OpenPath;
use crate::path_end::PathEnd;
use crate::path_key::PathKey;
use crate::paths::Paths;
use crate::speculation_calls::SpeculationCalls;
use crate::turning::discard_if_there;
use dspec_deeds::Decided;
use dspec_word::SpecId;

// A commit; None where it is to wait for room.
#[inline(always)]
fn commit_or_wait<B: SpeculationCalls>(cpu: &mut B, id: SpecId, waits: bool) -> Option<Decided>
    ensures same { B.identity cpu.new ≡ B.identity cpu.old }
    ensures commits { CommitsOrWaits (B.lacks_room cpu.new) waits id result (B.made cpu.old) (B.made cpu.new) }
{
    if waits {
        return cpu.commit_if_room(id);
    }
    Some(cpu.commit(id))
}

// How many records a commit copied.
fn records_copied(answer: Decided) -> u32
    ensures { result ≡ copied_by answer }
{
    match answer {
        Decided::Copied(count) => count,
        _ => 0,
    }
}

// How many records a discard threw away.
pub(crate) fn records_thrown(answer: Decided) -> u32
    ensures { result ≡ thrown_by answer }
{
    match answer {
        Decided::Thrown(count) => count,
        _ => 0,
    }
}

// Whether a commit lost its block.
fn is_lost_block(answer: Decided) -> bool
    ensures { result ≡ loses_block answer }
{
    matches!(answer, Decided::Lost(_))
}

impl Paths {
    /// Keeps a path: its speculations are committed, the older one first. With `waits` nothing is lost for want of room: where the
    /// principal buffer has none the path stays open, to be kept later. Else what has no room is lost, and with its older records a
    /// path is lost as a whole, since no end of a path is kept for the path.
    pub fn keep<B: SpeculationCalls>(&mut self, cpu: &mut B, key: &PathKey, waits: bool) -> PathEnd
        ensures same { B.identity cpu.new ≡ B.identity cpu.old }
        ensures keeps { KeepsPath (B.lacks_room cpu.new) waits key.now result (B.made cpu.old) (B.made cpu.new) (places_of self.old) (places_of self.new) }
        ensures counted { counted_in self.new ≡ counted_end (has_part_at key.now.place (places_of self.old)) result (counted_in self.old) }
    {
        let Some(path) = self.named(key) else {
            return PathEnd::Over;
        };
        match path.older {
            Some(older) => self.keep_older(cpu, key, &path, older, waits),
            None => self.keep_newest(cpu, key, &path, 0, waits),
        }
    }

    // Its older records come first.
    fn keep_older<B: SpeculationCalls>(
        &mut self,
        cpu: &mut B,
        key: &PathKey,
        path: &OpenPath,
        older: SpecId,
        waits: bool,
    ) -> PathEnd
        requires { IsNamed key.now (places_of self.old) path.now }
        ensures same { B.identity cpu.new ≡ B.identity cpu.old }
        ensures keeps { CommitsOlder (B.lacks_room cpu.new) waits older key.now path.now result (B.made cpu.old) (B.made cpu.new) (places_of self.old) (places_of self.new) }
        ensures counted { counted_in self.new ≡ counted_end true result (counted_in self.old) }
    {
        match commit_or_wait(cpu, older, waits) {
            None => PathEnd::Waits(0),
            Some(answer) => {
                let rest = OpenPath {
                    older: None,
                    is_kept: true,
                    ..*path
                };
                self.go_on(cpu, key, &rest, answer, waits)
            }
        }
    }

    // They were committed, or lost, with this answer.
    fn go_on<B: SpeculationCalls>(
        &mut self,
        cpu: &mut B,
        key: &PathKey,
        path: &OpenPath,
        answer: Decided,
        waits: bool,
    ) -> PathEnd
        requires { key.now.place < 64 }
        ensures same { B.identity cpu.new ≡ B.identity cpu.old }
        ensures keeps { KeepsRest (B.lacks_room cpu.new) waits (loses_block answer) (copied_by answer) key.now path.now result (B.made cpu.old) (B.made cpu.new) (places_of self.old) (places_of self.new) }
        ensures counted { counted_in self.new ≡ counted_end path.now.is_kept result (counted_in self.old) }
    {
        if is_lost_block(answer) {
            return self.lose_rest(cpu, key, path);
        }
        self.keep_newest(cpu, key, path, records_copied(answer), waits)
    }

    // It is lost as a whole, since its older records were.
    #[inline(never)]
    fn lose_rest<B: SpeculationCalls>(
        &mut self,
        cpu: &mut B,
        key: &PathKey,
        path: &OpenPath,
    ) -> PathEnd
        requires { key.now.place < 64 }
        ensures same { B.identity cpu.new ≡ B.identity cpu.old }
        ensures loses { LosesPath key.now path.now result (B.made cpu.old) (B.made cpu.new) (places_of self.old) (places_of self.new) }
        ensures counted { counted_in self.new ≡ counted_end path.now.is_kept result (counted_in self.old) }
    {
        let gone = cpu.discard(path.newest);
        self.put(key.place, None);
        self.counts.add_lost();
        PathEnd::Lost(records_thrown(gone))
    }

    // Its last records, after so many older ones.
    #[inline(always)]
    fn keep_newest<B: SpeculationCalls>(
        &mut self,
        cpu: &mut B,
        key: &PathKey,
        path: &OpenPath,
        before: u32,
        waits: bool,
    ) -> PathEnd
        requires { key.now.place < 64 }
        ensures same { B.identity cpu.new ≡ B.identity cpu.old }
        ensures keeps { CommitsNewest (B.lacks_room cpu.new) waits before key.now path.now result (B.made cpu.old) (B.made cpu.new) (places_of self.old) (places_of self.new) }
        ensures counted { counted_in self.new ≡ counted_end path.now.is_kept result (counted_in self.old) }
    {
        match commit_or_wait(cpu, path.newest, waits) {
            None => {
                self.put(key.place, Some(*path));
                PathEnd::Waits(before)
            }
            Some(answer) => {
                self.put(key.place, None);
                self.counts.add_ended(path.is_kept, answer);
                PathEnd::Ended(before, answer)
            }
        }
    }

    /// As `keep`, but one speculation a call, so that a caller may make room or note what was kept in between: the older one, where
    /// there is one, which is answered by `GoesOn`; else the last one.
    pub fn keep_part<B: SpeculationCalls>(
        &mut self,
        cpu: &mut B,
        key: &PathKey,
        waits: bool,
    ) -> PathEnd
        ensures same { B.identity cpu.new ≡ B.identity cpu.old }
        ensures keeps { KeepsPart (B.lacks_room cpu.new) waits key.now result (B.made cpu.old) (B.made cpu.new) (places_of self.old) (places_of self.new) }
        ensures counted { counted_in self.new ≡ counted_end (has_part_at key.now.place (places_of self.old)) result (counted_in self.old) }
    {
        let Some(path) = self.named(key) else {
            return PathEnd::Over;
        };
        match path.older {
            Some(older) => self.keep_older_part(cpu, key, &path, older, waits),
            None => self.keep_newest(cpu, key, &path, 0, waits),
        }
    }

    // Its older records alone.
    #[inline(never)]
    fn keep_older_part<B: SpeculationCalls>(
        &mut self,
        cpu: &mut B,
        key: &PathKey,
        path: &OpenPath,
        older: SpecId,
        waits: bool,
    ) -> PathEnd
        requires { IsNamed key.now (places_of self.old) path.now }
        ensures same { B.identity cpu.new ≡ B.identity cpu.old }
        ensures keeps { CommitsOlderPart (B.lacks_room cpu.new) waits older key.now path.now result (B.made cpu.old) (B.made cpu.new) (places_of self.old) (places_of self.new) }
        ensures counted { counted_in self.new ≡ counted_end true result (counted_in self.old) }
    {
        let Some(answer) = commit_or_wait(cpu, older, waits) else {
            return PathEnd::Waits(0);
        };
        let rest = OpenPath {
            older: None,
            is_kept: true,
            ..*path
        };
        if is_lost_block(answer) {
            return self.lose_rest(cpu, key, &rest);
        }
        self.put(key.place, Some(rest));
        PathEnd::GoesOn(records_copied(answer))
    }

    /// Throws a path away: its speculations are discarded. Whether one of this name was open and undecided.
    #[inline(always)]
    pub fn discard<B: SpeculationCalls>(&mut self, cpu: &mut B, key: &PathKey) -> bool
        ensures same { B.identity cpu.new ≡ B.identity cpu.old }
        ensures discards { DiscardsPath key.now result (B.made cpu.old) (B.made cpu.new) (places_of self.old) (places_of self.new) }
        ensures counted { counted_in self.new ≡ counted_discard result (counted_in self.old) }
    {
        let is_gone = self.empty(cpu, key);
        if is_gone {
            self.counts.add_thrown_away();
        }
        is_gone
    }

    /// The same of a path that was to be kept, and whose caller has no room for it: it is lost as a whole.
    pub fn lose<B: SpeculationCalls>(&mut self, cpu: &mut B, key: &PathKey) -> bool
        ensures same { B.identity cpu.new ≡ B.identity cpu.old }
        ensures discards { DiscardsPath key.now result (B.made cpu.old) (B.made cpu.new) (places_of self.old) (places_of self.new) }
        ensures counted { counted_in self.new ≡ counted_loss result (counted_in self.old) }
    {
        let is_gone = self.empty(cpu, key);
        if is_gone {
            self.counts.add_lost();
        }
        is_gone
    }

    // Its speculations are discarded, and its place is free.
    #[inline(always)]
    fn empty<B: SpeculationCalls>(&mut self, cpu: &mut B, key: &PathKey) -> bool
        ensures same { B.identity cpu.new ≡ B.identity cpu.old }
        ensures discards { DiscardsPath key.now result (B.made cpu.old) (B.made cpu.new) (places_of self.old) (places_of self.new) }
        ensures counted { counted_in self.new ≡ counted_in self.old }
    {
        let Some(path) = self.undecided(key) else {
            return false;
        };
        discard_if_there(cpu, path.older);
        cpu.discard(path.newest);
        self.put(key.place, None);
        true
    }
}
