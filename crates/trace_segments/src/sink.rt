//! The destination of a text.
ghost use Rattle.std.specs.Prelude.{◌≡◌, ℕ, ◌+◌, ◌<◌, ◌≤◌, List, Option, length, take, IfOk, OnOk, OnErr};
ghost use Rattle.std.specs.Io.KnownBytes.{append_known};
ghost use Rattle.trace_segments.specs.Sinking.{IsBeginning};

use crate::fault::SinkFault;

/// The destination of a text: a file, standard output, or a buffer of a test.
pub trait Sink {
    /// The bytes that it took so far, or none if that is not known.
    ghost taken: { Self → Option (List ℕ) };

    /// How many writes failed.
    ghost failures: { Self → ℕ };

    /// Takes some of these bytes, at least one, from the first on, and returns how many. If it fails it takes none.
    fn write(&mut self, bytes: &[u8]) -> Result<usize, SinkFault>
        requires { 0 < length bytes.now }
        ensures some { IfOk result (λ n. (1 ≤ n) × (n ≤ length bytes.now)) }
        ensures took { IfOk result (λ n. taken self.new ≡ append_known (taken self.old) (take n bytes.now)) }
        ensures went_well { OnOk result (failures self.new ≡ failures self.old) }
        ensures took_none { OnErr result (taken self.new ≡ taken self.old) }
        ensures failed { OnErr result (failures self.new ≡ failures self.old + 1) };
}

/// Writes all these bytes, by as many writes as needed. If one fails, a beginning of them was written.
pub fn write_all<S: Sink>(sink: &mut S, bytes: &[u8]) -> Result<(), SinkFault>
    ensures took { OnOk result (S.taken sink.new ≡ append_known (S.taken sink.old) bytes.now) }
    ensures went_well { OnOk result (S.failures sink.new ≡ S.failures sink.old) }
    ensures beginning { OnErr result (IsBeginning (S.taken sink.old) (S.taken sink.new) bytes.now) }
    ensures failed { OnErr result (S.failures sink.new ≡ S.failures sink.old + 1) }
{
    let mut sent = 0;
    while sent < bytes.len() {
        sent += sink.write(&bytes[sent..])?;
    }
    Ok(())
}
