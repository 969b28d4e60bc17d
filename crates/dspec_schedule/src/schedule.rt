ghost use Rattle.std.specs.Prelude.{◌≡◌, [], ◌∷◌, ◌++◌, false, None, map, option_map, IfOk, IfErr, IfSome, Ok, slice_index_or};
ghost use Rattle.dspec_schedule.specs.{Reading.HasOneHeader, Reading.no_rows, Reading.enabled_by, Reading.first_line_of, Reading.header_of, Reading.headed_by, Reading.later_line_of};
ghost use Rattle.dspec_schedule.specs.{Reading.line_read, Reading.policed_by, Reading.schedule_of, Reading.turned_by, Reading.words_read, Schedules.IsReadingFault, Schedules.plan_of, Steps.at_line};

use crate::fault::{LineKind, ScheduleFault};
use crate::grammar::turn;
use crate::setup::{config, enabling, header, policy};
use crate::words::{printable_text, words};
use dspec_deeds::{Config, CpuOp, Turn};
use dspec_interleaving::PlayFault;
use dspec_record::{Enablings, Header};
use std::alloc::{AllocError, Global};

/// A schedule as its text gives it, with the line of its configuration and of each turn. Lines are counted from 1. The
/// policy that a line names is that of the configuration. Without an enabling its records are those of the default
/// action, which have a stamp under header 2.
#[derive(Debug, Drop)]
pub struct Schedule {
    /// What the session is set up with.
    pub config: Config,
    /// The line of the configuration.
    pub config_line: u64,
    /// The header that a line names; header 1 where none does.
    pub named_header: Option<Header>,
    /// Whether a line names the policy.
    pub is_policy_named: bool,
    /// The enablings, whose records have the header of all records.
    pub enablings: Option<Enablings>,
    /// The turns, in order.
    pub turns: Vec<Turn>,
    /// The line of each turn.
    pub lines: Vec<u64>,
}

impl Schedule {
    ghost use Rattle.dspec_schedule.specs.Schedules.{fault_as_told};

    /// A schedule of a configuration alone. Takes no memory.
    fn new(alloc: Global, config: Config, config_line: u64) -> Self
        ensures config { result.config ≡ config }
        ensures config_line { result.config_line ≡ config_line }
        ensures header { result.named_header ≡ None }
        ensures policy { result.is_policy_named ≡ false }
        ensures enablings { result.enablings ≡ None }
        ensures turns { result.turns.items ≡ [] }
        ensures lines { result.lines.items ≡ [] }
    {
        Schedule {
            config,
            config_line,
            named_header: None,
            is_policy_named: false,
            enablings: None,
            turns: Vec::new(alloc),
            lines: Vec::new(alloc),
        }
    }

    /// The header of all records: header 1 where no line names one.
    pub fn header(&self) -> Header
        ensures { result ≡ header_of (plan_of self.now) }
    {
        self.named_header.unwrap_or(Header::One)
    }

    /// The line of a turn, or of the configuration where there is no such turn.
    fn line_of(&self, turn: usize) -> u64
        ensures { result ≡ slice_index_or self.now.lines.items turn self.now.config_line }
    {
        self.lines.get(turn).copied().unwrap_or(self.config_line)
    }

    /// Why this schedule's play failed, told at the line to blame.
    pub fn blame(&self, fault: PlayFault) -> ScheduleFault
        ensures { result ≡ fault_as_told self.now.config_line self.now.lines.items fault }
    {
        let (line, kind) = match fault {
            PlayFault::Setup(fault) => (self.config_line, LineKind::ConfigRefused(fault)),
            PlayFault::NoSuchActor(turn) => (self.line_of(turn), LineKind::NoSuchActor),
            PlayFault::Busy(turn) => (self.line_of(turn), LineKind::Busy),
            PlayFault::IdleStep(turn) => (self.line_of(turn), LineKind::IdleStep),
            PlayFault::BadRecord(turn) => (self.line_of(turn), LineKind::BadRecord),
            PlayFault::Memory => return ScheduleFault::Memory,
        };
        ScheduleFault::Line { line, kind }
    }
}

/// The schedule of a text, or the first fault of its first line that has one.
#[tactic(auto, unfolding(crate::specs::Reading::schedule_of))]
pub fn read_schedule(alloc: Global, text: &[u8]) -> Result<Schedule, ScheduleFault>
    ensures read { IfOk result (λ schedule. schedule_of text.now ≡ Ok (plan_of schedule)) }
    ensures one_header { IfOk result (λ schedule. HasOneHeader (plan_of schedule)) }
    ensures refused { IfErr result (IsReadingFault (schedule_of text.now)) }
{
    let mut schedule = None;
    let mut line = 0;
    let mut is_open = true;
    for bytes in text.split(|byte| *byte == b'\n') {
        line += 1;
        is_open = !bytes.is_empty();
        schedule = after_line(alloc, schedule, line, bytes)?;
    }
    // What stands after a last line feed is no line.
    let next_line = line + u64::from(is_open);
    schedule.ok_or(ScheduleFault::Line {
        line: next_line,
        kind: LineKind::NoConfig,
    })
}

/// The schedule so far, none before its configuration, after one more line.
#[tactic(auto, unfolding(crate::specs::Reading::line_read))]
fn after_line(
    alloc: Global,
    schedule: Option<Schedule>,
    line: u64,
    bytes: &[u8],
) -> Result<Option<Schedule>, ScheduleFault>
    requires one_header { IfSome schedule (λ before. HasOneHeader (plan_of before)) }
    ensures read { IfOk result (λ after. line_read (option_map plan_of schedule) line bytes.now ≡ Ok (option_map plan_of after)) }
    ensures refused { IfErr result (IsReadingFault (at_line line (line_read (option_map plan_of schedule) line bytes.now))) }
    ensures one_header { IfOk result (λ after. IfSome after (λ s. HasOneHeader (plan_of s))) }
{
    let Some(text) = printable_text(bytes) else {
        let kind = LineKind::NotPrintable;
        return Err(ScheduleFault::Line { line, kind });
    };
    let words = words(alloc, text)?;
    after_words(alloc, schedule, line, words.as_slice())
}

/// The same after the words of one more line.
#[tactic(auto, unfolding(crate::specs::Reading::words_read))]
fn after_words(
    alloc: Global,
    schedule: Option<Schedule>,
    line: u64,
    words: &[&str],
) -> Result<Option<Schedule>, ScheduleFault>
    requires one_header { IfSome schedule (λ before. HasOneHeader (plan_of before)) }
    ensures read { IfOk result (λ after. words_read (option_map plan_of schedule) line (map (λ word. word.now) words.now) ≡ Ok (option_map plan_of after)) }
    ensures refused { IfErr result (IsReadingFault (at_line line (words_read (option_map plan_of schedule) line (map (λ word. word.now) words.now)))) }
    ensures one_header { IfOk result (λ after. IfSome after (λ s. HasOneHeader (plan_of s))) }
{
    let Some((first, rest)) = words.split_first() else {
        return Ok(schedule);
    };
    match schedule {
        None => Ok(Some(first_line(alloc, line, first, rest)?)),
        Some(before) => Ok(Some(later_line(before, line, first, rest)?)),
    }
}

/// A schedule as its first line sets it up.
#[tactic(auto, unfolding(crate::specs::Reading::first_line_of))]
fn first_line(
    alloc: Global,
    line: u64,
    first: &str,
    words: &[&str],
) -> Result<Schedule, ScheduleFault>
    ensures read { IfOk result (λ schedule. first_line_of line first.now (map (λ word. word.now) words.now) ≡ Ok (plan_of schedule)) }
    ensures refused { IfErr result (IsReadingFault (at_line line (first_line_of line first.now (map (λ word. word.now) words.now)))) }
    ensures one_header { IfOk result (λ schedule. HasOneHeader (plan_of schedule)) }
{
    if first != "config" {
        let kind = LineKind::NoConfig;
        return Err(ScheduleFault::Line { line, kind });
    }
    let config = config(words).map_err(|kind| ScheduleFault::Line { line, kind })?;
    Ok(Schedule::new(alloc, config, line))
}

/// A schedule with what a later line says.
#[tactic(auto, unfolding(crate::specs::Reading::later_line_of))]
fn later_line(
    schedule: Schedule,
    line: u64,
    first: &str,
    words: &[&str],
) -> Result<Schedule, ScheduleFault>
    requires one_header { HasOneHeader (plan_of schedule) }
    ensures read { IfOk result (λ after. later_line_of (plan_of schedule) line first.now (map (λ word. word.now) words.now) ≡ Ok (plan_of after)) }
    ensures refused { IfErr result (IsReadingFault (at_line line (later_line_of (plan_of schedule) line first.now (map (λ word. word.now) words.now)))) }
    ensures one_header { IfOk result (λ after. HasOneHeader (plan_of after)) }
{
    match first {
        "enable" => with_enabling(schedule, line, words),
        "header" => with_header(schedule, line, words),
        "policy" => with_policy(schedule, line, words),
        _ => with_turn(schedule, line, first, words),
    }
}

/// A schedule with the enabling of a later line.
#[tactic(auto, unfolding(crate::specs::Reading::enabled_by))]
fn with_enabling(
    mut schedule: Schedule,
    line: u64,
    words: &[&str],
) -> Result<Schedule, ScheduleFault>
    requires one_header { HasOneHeader (plan_of schedule) }
    ensures read { IfOk result (λ after. enabled_by (plan_of schedule) (map (λ word. word.now) words.now) ≡ Ok (plan_of after)) }
    ensures refused { IfErr result (IsReadingFault (at_line line (enabled_by (plan_of schedule) (map (λ word. word.now) words.now)))) }
    ensures one_header { IfOk result (λ after. HasOneHeader (plan_of after)) }
{
    let enablings = match schedule.enablings {
        Some(enablings) => enablings,
        None => no_enablings(schedule.header()),
    };
    let enablings = enabling(schedule.turns.is_empty(), enablings, words).map_err(
        |kind| ScheduleFault::Line { line, kind },
    )?;
    schedule.enablings = Some(enablings);
    Ok(schedule)
}

/// No enabling, for records with this header.
#[tactic(auto)]
fn no_enablings(header: Header) -> Enablings
    ensures { result ≡ no_rows header }
{
    match header {
        Header::One => Enablings::new(),
        Header::Two => Enablings::new().stamped(),
    }
}

/// A schedule with the header of a later line, which is named once, before enablings and turns.
#[tactic(auto, unfolding(crate::specs::Reading::headed_by))]
fn with_header(mut schedule: Schedule, line: u64, words: &[&str]) -> Result<Schedule, ScheduleFault>
    ensures read { IfOk result (λ after. headed_by (plan_of schedule) (map (λ word. word.now) words.now) ≡ Ok (plan_of after)) }
    ensures refused { IfErr result (IsReadingFault (at_line line (headed_by (plan_of schedule) (map (λ word. word.now) words.now)))) }
    ensures one_header { IfOk result (λ after. HasOneHeader (plan_of after)) }
{
    let may_be_named = schedule.named_header.is_none()
        && schedule.enablings.is_none()
        && schedule.turns.is_empty();
    let header = header(may_be_named, words).map_err(|kind| ScheduleFault::Line { line, kind })?;
    schedule.named_header = Some(header);
    Ok(schedule)
}

/// A schedule with the policy of a later line, which is named once, before turns.
#[tactic(auto, unfolding(crate::specs::Reading::policed_by))]
fn with_policy(mut schedule: Schedule, line: u64, words: &[&str]) -> Result<Schedule, ScheduleFault>
    requires one_header { HasOneHeader (plan_of schedule) }
    ensures read { IfOk result (λ after. policed_by (plan_of schedule) (map (λ word. word.now) words.now) ≡ Ok (plan_of after)) }
    ensures refused { IfErr result (IsReadingFault (at_line line (policed_by (plan_of schedule) (map (λ word. word.now) words.now)))) }
    ensures one_header { IfOk result (λ after. HasOneHeader (plan_of after)) }
{
    let may_be_named = !schedule.is_policy_named && schedule.turns.is_empty();
    let policy = policy(may_be_named, words).map_err(|kind| ScheduleFault::Line { line, kind })?;
    schedule.config.policy = policy;
    schedule.is_policy_named = true;
    Ok(schedule)
}

/// A schedule with the turn of a later line after its others.
#[tactic(auto, unfolding(crate::specs::Reading::turned_by))]
fn with_turn(
    schedule: Schedule,
    line: u64,
    first: &str,
    words: &[&str],
) -> Result<Schedule, ScheduleFault>
    requires one_header { HasOneHeader (plan_of schedule) }
    ensures read { IfOk result (λ after. turned_by (plan_of schedule) line first.now (map (λ word. word.now) words.now) ≡ Ok (plan_of after)) }
    ensures refused { IfErr result (IsReadingFault (at_line line (turned_by (plan_of schedule) line first.now (map (λ word. word.now) words.now)))) }
    ensures one_header { IfOk result (λ after. HasOneHeader (plan_of after)) }
{
    // The check knows a turn's parts by the types that are named in this function.
    let _named: Option<CpuOp> = None;
    let turn = turn(schedule.header(), first, words).map_err(|kind| ScheduleFault::Line {
        line,
        kind,
    })?;
    let turns = with_last(schedule.turns, turn)?;
    let lines = with_last(schedule.lines, line)?;
    Ok(Schedule {
        config: schedule.config,
        config_line: schedule.config_line,
        named_header: schedule.named_header,
        is_policy_named: schedule.is_policy_named,
        enablings: schedule.enablings,
        turns,
        lines,
    })
}

/// The values with one more after the last.
fn with_last<T: Drop>(mut values: Vec<T>, last: T) -> Result<Vec<T>, AllocError>
    ensures { IfOk result (λ after. after.items ≡ values.items ++ last ∷ []) }
{
    values.push(last)?;
    Ok(values)
}
