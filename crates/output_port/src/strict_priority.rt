//! What the plain functions of the port imply: strict priority, and first in, first out within a priority.
ghost use Rattle.std.specs.Prelude.{◌≡◌, true, List, ◌∷◌, ◌++◌};
ghost use Rattle.vlink.specs.declared.frame.Frame.{Frame};
ghost use Rattle.output_port.specs.declared.event.Priority.{Priority};
ghost use Rattle.output_port.specs.declared.event.PortEvent.{PortEvent};
ghost use Rattle.output_port.specs.declared.event.PortEvent.TheVariants.{Put, Free};
ghost use Rattle.output_port.specs.declared.event.PortAnswer.TheVariants.{Started};
ghost use Rattle.output_port.specs.Port.{PortState, port, waiting, IsWithinBytes};
ghost use Rattle.output_port.specs.StrictPriority.{StartsNothing, kept_frames, started_frames, reached, IsWorkConserving};

/// A busy port starts nothing when a frame is put, so the frame in transmission is never interrupted. When the line becomes free and a high
/// frame waits, the first high frame starts (strict priority, ARINC 664 Part 7). The frames of one priority start in the order in which
/// they were kept, and each frame kept has started or waits. No event makes more bytes wait than may, and none leaves a frame waiting at an
/// idle port.
pub fn order()
    ensures uninterrupted { (p : PortState) (frame : Frame) (priority : Priority) →
        p.busy ≡ true → StartsNothing p (Put frame priority) }
    ensures high_first { (p : PortState) (frame : Frame) (rest : List Frame) →
        p.busy ≡ true → p.high ≡ frame ∷ rest → port.out p Free ≡ Started frame }

    // The frames that wait at the start, and those that are kept, are those that start and those that wait at the end.
    ensures in_order { (priority : Priority) (p : PortState) (events : List PortEvent) →
        waiting priority p ++ kept_frames priority p events
        ≡ started_frames priority p events ++ waiting priority (reached p events) }

    ensures within { (p : PortState) (e : PortEvent) → IsWithinBytes p → IsWithinBytes (port.after p e) }
    ensures works_on { (p : PortState) (e : PortEvent) → IsWorkConserving p → IsWorkConserving (port.after p e) }
{}
