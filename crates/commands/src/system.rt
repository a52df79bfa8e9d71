//! The real host: the files and the standard streams of the system.
ghost use Rattle.std.specs.Prelude.{◌≡◌, ◌≤◌, length, IfSome};

use crate::host::{FileFault, Host};
use std::alloc::Global;
use std::fs;
use std::fs::File;
use std::io::{Error, ErrorKind, IsTerminal, Stderr, Stdout, Write};
use std::os::unix::fs::MetadataExt;
use std::path::Path;
use trace_tables::{Sink, SinkFault};

/// A file or a stream of the system. No clause states what it took.
#[derive(Drop)]
pub struct Device<W> {
    writer: W,
    failures: u64,
}

/// Writes some of these bytes, by one system call if it is not interrupted, and returns how many. None if the system refuses.
fn write_some<W: Write>(writer: &mut W, bytes: &[u8]) -> Option<usize>
    ensures some { IfSome result (λ n. (1 ≤ n) × (n ≤ length bytes.now)) }
{
    for _ in 0..u64::MAX {
        match writer.write(bytes) {
            Ok(0) => return None,
            Ok(n) => return Some(n),
            Err(error) if error.kind() == ErrorKind::Interrupted => {}
            Err(_) => return None,
        }
    }
    None
}

impl<W: Write> Sink for Device<W> {
    ghost use Rattle.std.specs.Prelude.{None};

    ghost taken = { λ _. None };

    ghost failures = { λ device. device.failures };

    // After 2^64 - 1 failures it takes all bytes and drops them.
    fn write(&mut self, bytes: &[u8]) -> Result<usize, SinkFault> {
        match write_some(&mut self.writer, bytes) {
            Some(n) => Ok(n),
            None if self.failures < u64::MAX => {
                self.failures += 1;
                Err(SinkFault)
            }
            None => Ok(bytes.len()),
        }
    }
}

/// The system on which the program runs.
#[derive(Drop)]
pub struct System {
    runtime: HostRuntime,
    output: Device<Stdout>,
    errors: Device<Stderr>,
}

impl System {
    /// Makes the system of this runtime. No write has failed yet.
    pub fn new(runtime: HostRuntime) -> Self
        ensures output { ⟦<Device<Stdout> as Sink>⟧.failures (⟦<System as Host>⟧.outside.output result) ≡ 0 }
        ensures errors { ⟦<Device<Stderr> as Sink>⟧.failures (⟦<System as Host>⟧.outside.errors result) ≡ 0 }
    {
        System {
            runtime,
            output: Device {
                writer: runtime.stdout(),
                failures: 0,
            },
            errors: Device {
                writer: runtime.stderr(),
                failures: 0,
            },
        }
    }
}

/// Returns why the system did not read or create a file.
fn fault_of(error: &Error) -> FileFault {
    match error.kind() {
        ErrorKind::OutOfMemory => FileFault::OutOfMemory,
        _ => FileFault::Device,
    }
}

/// An existing file: its device, and its number on it.
type Place = (u64, u64);

/// The path of a file that drops all that is written into it.
const NOWHERE: &str = "/dev/null";

impl System {
    /// Returns the file that this path names, if it exists.
    fn place_of(&self, path: Path<'_>) -> Option<Place> {
        let found = fs::metadata(&self.runtime, path).ok()?;
        Some((found.dev(), found.ino()))
    }

    /// Whether this path names a plain file that exists. Any other, such as a terminal, has no contents that could be overwritten.
    fn is_plain(&self, path: Path<'_>) -> bool {
        match fs::metadata(&self.runtime, path) {
            Ok(found) => found.is_file(),
            Err(_) => false,
        }
    }

    /// Returns the folder in which this path names a file, if it exists, and the name in it.
    fn entry_of<'a>(&self, path: Path<'a>) -> Option<(Place, &'a str)> {
        let folder = path.parent()?;
        let name = path.file_name()?;
        let here = Path::new("");
        let folder = if folder == here {
            Path::new(".")
        } else {
            folder
        };
        Some((self.place_of(folder)?, name))
    }

    /// Whether both paths name one plain file that exists, or one name of one folder in which no file has it yet.
    fn is_same(&self, first: &str, second: &str) -> bool {
        let (first, second) = (Path::new(first), Path::new(second));
        match (self.place_of(first), self.place_of(second)) {
            (Some(one), Some(other)) => one == other && self.is_plain(first),
            (None, None) => match (self.entry_of(first), self.entry_of(second)) {
                (Some(one), Some(other)) => one == other,
                _ => false,
            },
            _ => false,
        }
    }
}

impl Host for System {
    ghost use Rattle.std.proofs.Common.{refl, true, ◌≡◌, ◌≢◌};
    ghost use Rattle.commands.specs.Outside.{nowhere};

    type File = Device<File>;

    type Output = Device<Stdout>;

    type Errors = Device<Stderr>;

    // Only the system knows what its files contain and which can be created; and which paths name one file, except that equal paths do,
    // unless the file drops what is written.
    ghost outside = { record {
      gives = λ _ _ _. Unit;
      makes = λ _ _ _. Unit;
      tells = λ _ first second is_one. first ≢ nowhere → first ≡ second → is_one ≡ true;
      output = λ system. system.output;
      errors = λ system. system.errors;
      with_output = λ system out. record system { output = out };
      with_errors = λ system out. record system { errors = out };
      made = λ system _. system;
      closed = λ system _ _. system;
      missed = λ system _. system;
      wrote = ⟦<Device<File> as Sink>⟧.taken;
      file_failures = ⟦<Device<File> as Sink>⟧.failures;
      showed = ⟦<Device<Stdout> as Sink>⟧.taken;
      output_failures = ⟦<Device<Stdout> as Sink>⟧.failures;
      said = ⟦<Device<Stderr> as Sink>⟧.taken;
      errors_failures = ⟦<Device<Stderr> as Sink>⟧.failures;
    } };

    ghost lawful = { record {
      equal_paths = λ _ _ _ kept told. told kept refl;
      output_stays = λ _ _. refl;
      errors_beside = λ _ _. refl;
      errors_stay = λ _ _. refl;
      output_beside = λ _ _. refl;
      output_at_made = λ _ _. refl;
      errors_at_made = λ _ _. refl;
      output_at_closed = λ _ _ _. refl;
      errors_at_closed = λ _ _ _. refl;
      output_at_missed = λ _ _. refl;
      errors_at_missed = λ _ _. refl;
      output_same = λ _. refl;
      file_took = λ _. refl;
      file_failed = λ _. refl;
      output_took = λ _. refl;
      output_failed = λ _. refl;
      errors_took = λ _. refl;
      errors_failed = λ _. refl;
      errors_same = λ _. refl;
      errors_before_made = λ _ _ _. refl;
      makes_beside = λ _ _ _ _ is. is;
    } };

    fn is_one_file(&self, first: &str, second: &str) -> bool {
        (first == second && first != NOWHERE) || self.is_same(first, second)
    }

    fn read(&mut self, alloc: Global, path: &str) -> Result<Vec<u8>, FileFault> {
        match fs::read(&self.runtime, path) {
            Ok(bytes) => Ok(bytes),
            Err(error) => Err(fault_of(&error)),
        }
    }

    fn make(&mut self, path: &str) -> Result<Device<File>, FileFault> {
        match fs::create(&self.runtime, path) {
            Ok(writer) => Ok(Device {
                writer,
                failures: 0,
            }),
            Err(error) => Err(fault_of(&error)),
        }
    }

    fn close(&mut self, _path: &str, _file: Device<File>) {}

    fn output(&mut self) -> &mut Device<Stdout> {
        &mut self.output
    }

    fn errors(&mut self) -> &mut Device<Stderr> {
        &mut self.errors
    }

    fn is_terminal(&self) -> bool {
        self.errors.writer.is_terminal()
    }
}
