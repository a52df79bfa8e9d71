//! The speed of a run by a clock and a count of events: texts behind the moment that the run has reached. The text of a run that has ended is
//! exact; that of one that goes on has no clause.
ghost use Rattle.std.specs.Prelude.{◌≡◌, ◌++◌, IfOk, OnOk, string_bytes};
ghost use Rattle.commands.specs.Speed.{count_text, end_text, events_text};

use std::alloc::{AllocError, Global};
use vlink::Time;

/// Appends a count, in thousands or millions if it is great.
fn push_count(text: &mut String, count: u64) -> Result<(), AllocError>
    ensures { OnOk result (string_bytes text.new ≡ string_bytes text.old ++ count_text count) }
{
    if count >= 1_000_000 {
        let whole = count / 1_000_000;
        let tenth = count / 100_000 % 10;
        return write!(text, "{whole}.{tenth} M");
    }
    if count >= 10_000 {
        let thousands = count / 1_000;
        return write!(text, "{thousands} k");
    }
    write!(text, "{count}")
}

/// Makes the text for a run that has reached this moment of its time after `ms` ms: its progress in per cent, how many events it handles in
/// a second, if they are counted, and how many seconds are left if the rest takes as long as what is done.
pub fn pace_so_far(
    alloc: Global,
    moment: Time,
    until: Time,
    events: u64,
    ms: u64,
) -> Result<String, AllocError> {
    let end_us = until.ns().div_ceil(1_000).max(1);
    let done_us = end_us.min(moment.ns() / 1_000);
    let percent = done_us.saturating_mul(100) / end_us;
    let mut text = format!(in alloc; ", {percent} %")?;
    if events > 0 {
        text.push_str(", ")?;
        push_count(&mut text, events.saturating_mul(1_000) / ms.max(1))?;
        text.push_str(" events/s")?;
    }
    if done_us > 0 {
        let left_us = end_us.saturating_sub(done_us);
        let left_s = ms.saturating_mul(left_us) / done_us / 1_000;
        write!(text, ", {left_s} s left")?;
    }
    Ok(text)
}

/// Makes the text for a run that ended after `ms` ms: how many events it handled, if they were counted, and how long it took.
pub fn pace_at_end(alloc: Global, events: u64, ms: u64) -> Result<String, AllocError>
    ensures { IfOk result (λ text. string_bytes text ≡ end_text events ms) }
{
    let mut text = String::new(alloc);
    push_events(&mut text, events)?;
    let whole = ms / 1_000;
    let tenth = ms / 100 % 10;
    write!(text, " in {whole}.{tenth} s")?;
    Ok(text)
}

/// Appends how many events a run handled, if they were counted.
fn push_events(text: &mut String, events: u64) -> Result<(), AllocError>
    ensures { OnOk result (string_bytes text.new ≡ string_bytes text.old ++ events_text events) }
{
    if events == 0 {
        return Ok(());
    }
    text.push_str(", ")?;
    push_count(text, events)?;
    text.push_str(" events")
}
