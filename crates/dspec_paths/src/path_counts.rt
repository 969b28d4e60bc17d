ghost use Rattle.std.specs.Prelude.{◌≡◌};
ghost use Rattle.dspec_paths.specs.Counts.{counted_commit, no_counts, with_one_begun, with_one_kept, with_one_lost, with_one_thrown_away};

use dspec_deeds::Decided;

/// How many paths there were in a table. Each number is told modulo 2^64.
#[derive(Debug, Clone, Copy, PartialEq, Eq)]
pub struct PathCounts {
    /// Those that began.
    pub began: u64,
    /// Those that were kept, a part of them at least.
    pub kept: u64,
    /// Those that were thrown away.
    pub thrown_away: u64,
    /// Those that were to be kept, and of which nothing was committed.
    pub lost: u64,
}

impl PathCounts {
    /// No path has begun.
    pub(crate) fn none() -> PathCounts
        ensures { result ≡ no_counts }
    {
        PathCounts {
            began: 0,
            kept: 0,
            thrown_away: 0,
            lost: 0,
        }
    }

    /// One more began.
    #[inline]
    pub(crate) fn add_begun(&mut self)
        ensures { self.new ≡ with_one_begun self.old }
    {
        self.began = self.began.wrapping_add(1);
    }

    /// One more was thrown away.
    #[inline]
    pub(crate) fn add_thrown_away(&mut self)
        ensures { self.new ≡ with_one_thrown_away self.old }
    {
        self.thrown_away = self.thrown_away.wrapping_add(1);
    }

    /// One more is lost.
    #[inline]
    pub(crate) fn add_lost(&mut self)
        ensures { self.new ≡ with_one_lost self.old }
    {
        self.lost = self.lost.wrapping_add(1);
    }

    // One more was kept.
    #[inline]
    fn add_kept(&mut self)
        ensures { self.new ≡ with_one_kept self.old }
    {
        self.kept = self.kept.wrapping_add(1);
    }

    /// One more is over, whose last speculation was to be committed, with this answer; `has_part`: a part of it was kept before.
    #[inline]
    pub(crate) fn add_ended(&mut self, has_part: bool, answer: Decided)
        ensures { self.new ≡ counted_commit has_part answer self.old }
    {
        if has_part {
            return self.add_kept();
        }
        match answer {
            Decided::Copied(_) => self.add_kept(),
            _ => self.add_lost(),
        }
    }
}
