//! Writes the text of the steps of a run.
ghost use Rattle.std.specs.Prelude.{◌≡◌, ◌≢◌, ◌⊎◌, ◌+◌, IfErr, OnOk};
ghost use Rattle.std.specs.Io.KnownBytes.{append_known};
ghost use Rattle.journal_text.specs.Text.{steps_text};
ghost use Rattle.trace_segments.specs.declared.fault.OutFault.TheVariants.{Device, OutOfMemory};
ghost use Rattle.trace_segments.specs.Words.{IsBeginning};

use journal_text::{LONGEST_LINE, push_step};
use std::alloc::Global;
use trace_tables::{OutFault, Sink, write_all};
use vlink::Step;

/// The most bytes that are held until they are written.
const HELD_BYTES: usize = 65_536;

/// Writes the text of these steps, one a line, as `read_steps` reads it.
///
/// Its memory, 65536 bytes for any number of steps, is taken before the first byte is written. `Device` comes only if the sink failed; what
/// was written is a beginning of the text. `OutOfMemory` comes only if memory was refused; then nothing was written. `Layout` never comes.
pub fn write_steps<S: Sink>(alloc: Global, steps: &[Step], sink: &mut S) -> Result<(), OutFault>
    ensures text { OnOk result (S.taken sink.new ≡ append_known (S.taken sink.old) (steps_text steps.now)) }
    ensures went_well { OnOk result (S.failures sink.new ≡ S.failures sink.old) }
    ensures faults { IfErr result (λ fault. (fault ≡ Device) ⊎ (fault ≡ OutOfMemory)) }
    ensures device { IfErr result (λ fault. fault ≡ Device → IsBeginning (S.taken sink.old) (S.taken sink.new) (steps_text steps.now)) }
    ensures failed { IfErr result (λ fault. fault ≡ Device → S.failures sink.new ≡ S.failures sink.old + 1) }
    ensures kept { IfErr result (λ fault. fault ≢ Device → sink.new ≡ sink.old) }
{
    let mut held = Vec::with_capacity(alloc, HELD_BYTES)?;
    for step in steps {
        if held.len() + LONGEST_LINE > HELD_BYTES {
            write_all(sink, held.as_slice())?;
            held.clear();
        }
        push_step(&mut held, *step)?;
    }
    write_all(sink, held.as_slice())?;
    Ok(())
}
