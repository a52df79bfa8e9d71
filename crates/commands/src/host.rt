//! What the program uses outside itself.
ghost use Rattle.std.specs.Prelude.{◌≡◌, ℕ, [], true, false, List, IfOk, IfErr, IfSome, OnOk};
ghost use Rattle.std.specs.Borrow.{sem, Lends};
ghost use Rattle.commands.specs.Outside.{IsHost, Outside};
ghost use Rattle.commands.specs.declared.host.FileFault.TheVariants.{Device, OutOfMemory};

use std::alloc::Global;
use thiserror::Error;
use trace_tables::Sink;

/// Why a file was not read, or not created.
#[derive(Clone, Copy, Debug, Error)]
pub enum FileFault {
    /// The file does not exist or cannot be read; or it cannot be created.
    #[error("cannot open")]
    Device,
    /// Memory was refused.
    #[error("out of memory")]
    OutOfMemory,
}

/// What the program uses outside itself: files, standard output and error output.
pub trait Host {
    /// A file that is being written.
    type File: Sink + Drop + Send;

    /// Standard output.
    type Output: Sink;

    /// Error output.
    type Errors: Sink;

    /// The state of all this, as plain functions and relations. A host that knows its files allows just what they contain, which can be
    /// created, and which of their paths name one file. A host that does not know this allows more.
    ghost outside: { Outside Self Self.File Self.Output Self.Errors };

    /// Whether two paths name one file, as far as the host knows, and the file has contents that could be lost. Creates and writes nothing.
    fn is_one_file(&self, first: &str, second: &str) -> bool
        ensures { outside.tells self.now first.now second.now result };

    /// Returns the bytes of the file with this path. `Device` comes if it cannot be read, which the host may note, and `OutOfMemory` only
    /// if it can be read and memory was refused.
    fn read(&mut self, alloc: Global, path: &str) -> Result<Vec<u8>, FileFault>
        ensures bytes { IfOk result (λ bytes. outside.gives self.old path.now (Some bytes.items)) }
        ensures absent { IfErr result (λ fault. fault ≡ Device → outside.gives self.old path.now None) }
        ensures memory { IfErr result (λ fault. fault ≡ OutOfMemory → (bytes : List ℕ) × outside.gives self.old path.now (Some bytes)) }
        ensures host { OnOk result (self.new ≡ self.old) }
        ensures missed { IfErr result (λ fault. fault ≡ Device → self.new ≡ outside.missed self.old path.now) }
        ensures kept { IfErr result (λ fault. fault ≡ OutOfMemory → self.new ≡ self.old) };

    /// Creates an empty file with this path, in place of an earlier one. `Device` comes if it cannot be created, which the host may note,
    /// and `OutOfMemory` only if it can be created and memory was refused.
    fn make(&mut self, path: &str) -> Result<Self::File, FileFault>
        ensures empty { IfOk result (λ file. IfSome (outside.wrote file) (λ bytes. bytes ≡ [])) }
        ensures fresh { IfOk result (λ file. outside.file_failures file ≡ 0) }
        ensures host { OnOk result (self.new ≡ outside.made self.old path.now) }
        ensures made { OnOk result (outside.makes self.old path.now true) }
        ensures refused { IfErr result (λ fault. fault ≡ Device → outside.makes self.old path.now false) }
        ensures missed { IfErr result (λ fault. fault ≡ Device → self.new ≡ outside.missed self.old path.now) }
        ensures memory { IfErr result (λ fault. fault ≡ OutOfMemory → outside.makes self.old path.now true) }
        ensures kept { IfErr result (λ fault. fault ≡ OutOfMemory → self.new ≡ self.old) }
        ensures output { outside.output self.new ≡ outside.output self.old }
        ensures errors { outside.errors self.new ≡ outside.errors self.old };

    /// Takes the file with this path back, once it is whole.
    fn close(&mut self, path: &str, file: Self::File)
        ensures { self.new ≡ outside.closed self.old path.now file };

    /// Returns standard output.
    fn output(&mut self) -> &mut Self::Output
        ensures* writes_back { sem 𝓛 (Lends Self.row Self.Output.row self.entry result (outside.with_output self.old)) }
        ensures value { result.now ≡ outside.output self.old };

    /// Returns error output.
    fn errors(&mut self) -> &mut Self::Errors
        ensures* writes_back { sem 𝓛 (Lends Self.row Self.Errors.row self.entry result (outside.with_errors self.old)) }
        ensures value { result.now ≡ outside.errors self.old };

    /// Whether error output is a terminal.
    fn is_terminal(&self) -> bool;

    /// The law of a host.
    ghost lawful: { IsHost outside Self.File.taken Self.File.failures Self.Output.taken Self.Output.failures Self.Errors.taken Self.Errors.failures };
}
