//! Random schedules of whole calls, played by the player and on a session.

use crate::comparing::{Comparison, both_told, verdict_of};
use crate::made::made;
use crate::making::sample;
use crate::options::{Options, ScheduleTask, ask_of};
use crate::sample::Sample;
use crate::shortening::shorten;
use crate::tally::Tally;
use crate::writing::difference;
use dspec_command::{CommandFault, output_fault, print_text};
use dspec_samples::Dice;
use std::alloc::{AllocError, Global};

/// Plays a schedule by both, counts it, and gives it, shortened, where they differ.
fn play_both(
    alloc: Global,
    tally: &mut Tally,
    sample: Sample,
) -> Result<Option<Sample>, AllocError> {
    let (player, session) = both_told(alloc, &sample)?;
    let verdict = verdict_of(&player, &session);
    tally.count(verdict, sample.schedule.turns.len() as u64);
    if verdict != Comparison::Differ {
        return Ok(None);
    }
    let mut sample = sample;
    shorten(alloc, &mut sample)?;
    Ok(Some(sample))
}

/// Plays random schedules until both players differ, and gives the counts and the schedule at which they do, shortened.
fn play_all(alloc: Global, options: Options) -> Result<(Tally, Option<Sample>), AllocError> {
    let mut dice = Dice::new(options.seed);
    let mut tally = Tally::default();
    for _ in 0..options.count {
        let sample = sample(alloc, &mut dice)?;
        if let Some(found) = play_both(alloc, &mut tally, sample)? {
            return Ok((tally, Some(found)));
        }
    }
    Ok((tally, None))
}

/// Plays the one that is made up.
fn play_made(alloc: Global) -> Result<(Tally, Option<Sample>), AllocError> {
    let mut tally = Tally::default();
    let found = play_both(alloc, &mut tally, made(alloc)?)?;
    Ok((tally, found))
}

/// Prints the difference, where there is one, and the counts. Says whether there was none.
fn tell<'a>(rt: &HostRuntime, played: (Tally, Option<Sample>)) -> Result<bool, CommandFault<'a>> {
    let (tally, found) = played;
    if let Some(sample) = &found {
        let (player, session) = both_told(rt.alloc(), sample)?;
        let text = difference(rt.alloc(), sample, &player, &session)?;
        print_text(rt, text.as_str())?;
    }
    match println!(rt; "{tally}") {
        Ok(()) => Ok(found.is_none()),
        Err(reason) => Err(output_fault(reason)),
    }
}

/// Does what the words ask for, the first of which is the program's name, and says whether there was no difference.
pub fn compare_schedules<'a>(
    rt: &HostRuntime,
    words: &'a [String],
) -> Result<bool, CommandFault<'a>> {
    let played = match ask_of(rt.alloc(), words)? {
        ScheduleTask::Play(options) => play_all(rt.alloc(), options)?,
        ScheduleTask::Made => play_made(rt.alloc())?,
        ScheduleTask::Text(text) => {
            print_text(rt, text.as_str())?;
            return Ok(true);
        }
    };
    tell(rt, played)
}
