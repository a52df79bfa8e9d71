//! Progress: error output shows how far a run is, and which groups and workers it had. On a terminal a line ends like any other, and the
//! next one moves up into its place. So a fault behind it has a line of its own.
ghost use Rattle.std.specs.Prelude.{◌≡◌, ◌⊎◌, ◌++◌, [], IfOk, OnOk, string_bytes};
ghost use Rattle.commands.specs.Progress.{HearsAsked, IsProgressLine, groups_text, progress_text, upwards};

use crate::host::Host;
use crate::pace_text::{pace_at_end, pace_so_far};
use crate::telling::say;
use actor_run::Watch;
use std::alloc::{AllocError, Global};
use std::time::{Clock, Instant};
use trace_tables::Sink;
use vlink::Time;

const NS_PER_MS: u64 = 1_000_000;

/// The least time between two lines.
const MS_PER_LINE: u64 = 250;

/// Whether progress is asked for, and whether error output is a terminal. On a terminal a line replaces the one before it.
#[derive(Clone, Copy)]
pub struct Asked {
    pub is_asked: bool,
    pub is_terminal: bool,
}

/// Asks a host whether its error output is a terminal.
pub fn asked_of<H: Host>(is_asked: bool, host: &H) -> Asked
    ensures { result.is_asked ≡ is_asked }
{
    Asked {
        is_asked,
        is_terminal: host.is_terminal(),
    }
}

/// Writes to error output how many groups of processes and how many workers a run had, if progress is asked for. If memory for the line is
/// refused, nothing is written.
pub fn tell_groups<E: Sink>(
    alloc: Global,
    groups: usize,
    workers: usize,
    asked: Asked,
    errors: &mut E,
)
    ensures { HearsAsked E.taken E.failures asked.is_asked (λ line. line ≡ groups_text groups workers) errors.old errors.new }
{
    if !asked.is_asked {
        return;
    }
    let Ok(line) = groups_line(alloc, groups, workers) else {
        return;
    };
    say(line.as_str(), errors);
}

/// Makes the line with these numbers of groups and workers.
fn groups_line(alloc: Global, groups: usize, workers: usize) -> Result<String, AllocError>
    ensures { IfOk result (λ line. string_bytes line ≡ groups_text groups workers) }
{
    let mut line = String::from_str(alloc, "afdxsim: ")?;
    write!(line, "{groups} groups, ")?;
    write!(line, "{workers} workers")?;
    line.push_str("\n")?;
    Ok(line)
}

/// Writes to error output how far a run is, if that is asked for. If the clock cannot be read, or memory for a line is refused, no line is
/// written.
#[derive(Drop)]
pub struct Progress<'a, E: Sink, T: Clock> {
    pub errors: &'a mut E,
    clock: &'a T,
    alloc: Global,
    pub until: Time,
    pub asked: Asked,
    /// When the run began, if the clock can be read and progress is asked for.
    start: Option<Instant>,
    /// When the last line was written, in ms from the start.
    told_ms: u64,
    /// Whether a line was written.
    has_told: bool,
    events: u64,
}

impl<'a, E: Sink, T: Clock> Progress<'a, E, T> {
    /// Begins a run that ends at this moment, in ns. Nothing is written yet.
    pub fn new(clock: &'a T, alloc: Global, until: Time, asked: Asked, errors: &'a mut E) -> Self
        ensures same_reference { result.errors.ghost_name ≡ errors.entry.ghost_name }
        ensures errors { result.errors.now ≡ errors.old }
        ensures asked { result.asked.is_asked ≡ asked.is_asked }
        ensures until { result.until ≡ until }
    {
        let start = if asked.is_asked {
            Instant::now(clock).ok()
        } else {
            None
        };
        Progress {
            errors,
            clock,
            alloc,
            until,
            asked,
            start,
            told_ms: 0,
            has_told: false,
            events: 0,
        }
    }

    /// Returns how long the run has gone on, in ms, if the clock can be read and progress is asked for.
    fn elapsed_ms(&self) -> Option<u64> {
        let elapsed = self.start?.elapsed(self.clock).ok()?;
        u64::try_from(elapsed.as_millis()).ok()
    }

    /// Writes a line, if progress is asked for.
    fn tell(&mut self, moment: Time, rest: &str)
        ensures same_reference { self.new.errors.ghost_name ≡ self.old.errors.ghost_name }
        ensures asked { self.new.asked.is_asked ≡ self.old.asked.is_asked }
        ensures until { self.new.until ≡ self.old.until }
        ensures heard { HearsAsked E.taken E.failures self.old.asked.is_asked (IsProgressLine self.old.until) self.old.errors.now self.new.errors.now }
    {
        if !self.asked.is_asked {
            return;
        }
        let is_over = self.asked.is_terminal && self.has_told;
        let Ok(line) = line_of(self.alloc, self.until, moment, is_over, rest) else {
            return;
        };
        say(line.as_str(), self.errors);
        self.has_told = true;
    }

    /// Writes the last line: the run has ended.
    pub fn end(&mut self)
        ensures same_reference { self.new.errors.ghost_name ≡ self.old.errors.ghost_name }
        ensures asked { self.new.asked.is_asked ≡ self.old.asked.is_asked }
        ensures until { self.new.until ≡ self.old.until }
        ensures heard { HearsAsked E.taken E.failures self.old.asked.is_asked (IsProgressLine self.old.until) self.old.errors.now self.new.errors.now }
    {
        let rest = match self.elapsed_ms() {
            Some(ms) => pace_at_end(self.alloc, self.events, ms),
            None => Err(AllocError),
        };
        let until = self.until;
        if let Ok(rest) = rest {
            self.tell(until, rest.as_str());
        }
    }
}

/// Makes the line of a run that ends at this moment, in ns: how far it is, and then the rest.
fn line_of(
    alloc: Global,
    until: Time,
    moment: Time,
    is_over: bool,
    rest: &str,
) -> Result<String, AllocError>
    ensures { IfOk result (λ line. IsProgressLine until (string_bytes line)) }
{
    let until_ms = until.ns() / NS_PER_MS;
    let moment_ms = until_ms.min(moment.ns() / NS_PER_MS);
    let mut line = String::from_str(alloc, front_of(is_over))?;
    push_line(&mut line, moment_ms, until_ms, rest)?;
    Ok(line)
}

/// Returns what stands before a line: nothing, or the codes that lead to the place of the line before it.
fn front_of(is_over: bool) -> &'static str
    ensures { (result.now ≡ []) ⊎ (result.now ≡ upwards) }
{
    if is_over { "\x1b[1A\x1b[2K" } else { "" }
}

/// Appends the ms that are simulated, the ms of the whole run, and then the rest of the line.
fn push_line(line: &mut String, moment_ms: u64, until_ms: u64, rest: &str) -> Result<(), AllocError>
    ensures { OnOk result (string_bytes line.new ≡ string_bytes line.old ++ progress_text moment_ms until_ms rest.now) }
{
    write!(line, "afdxsim: {moment_ms}")?;
    write!(line, " of {until_ms} ms")?;
    line.push_str(rest)?;
    line.push_str("\n")
}

impl<'a, E: Sink, T: Clock> Watch for Progress<'a, E, T> {
    ghost use Rattle.std.specs.Prelude.{◌≡◌, ℕ, Bool};
    ghost use Rattle.std.proofs.Common.{refl, subst, ◌∙◌};
    ghost use Rattle.commands.specs.Progress.{HearsAsked, IsProgressLine};
    ghost use Rattle.commands.specs.MoreProgress.{asked_none, asked_more};

    ghost becomes = { λ old new. (new.errors.ghost_name ≡ old.errors.ghost_name) × (new.asked.is_asked ≡ old.asked.is_asked) × (new.until ≡ old.until)
        × HearsAsked E.taken E.failures old.asked.is_asked (IsProgressLine old.until) old.errors.now new.errors.now };

    fn look(&mut self, moment: Time, events: u32) {
        self.events = self.events.saturating_add(u64::from(events));
        let Some(ms) = self.elapsed_ms() else {
            return;
        };
        if ms < self.told_ms.saturating_add(MS_PER_LINE) {
            return;
        }
        self.told_ms = ms;
        if let Ok(rest) = pace_so_far(self.alloc, moment, self.until, self.events, ms) {
            self.tell(moment, rest.as_str());
        }
    }

    ghost stays = { λ w. (refl, refl, refl, asked_none E.taken E.failures (IsProgressLine w.until) w.asked.is_asked w.errors.now) };

    ghost goes_on = { λ a b c f g. (
      g.0 ∙ f.0,
      g.1 ∙ f.1,
      g.2 ∙ f.2,
      asked_more E.taken E.failures (IsProgressLine a.until) a.asked.is_asked a.errors.now b.errors.now c.errors.now f.3
          (subst (λ (asked : Bool). HearsAsked E.taken E.failures asked (IsProgressLine a.until) b.errors.now c.errors.now) f.1
          (subst (λ (until : ℕ). HearsAsked E.taken E.failures b.asked.is_asked (IsProgressLine until) b.errors.now c.errors.now) f.2 g.3)),
    ) };
}
