//! A host that knows the bytes of its files and streams, which file can be read and which can be created. No command runs on it: it shows
//! that such a host can exist.
ghost use Rattle.std.specs.Prelude.{◌≡◌, []};

use crate::host::{FileFault, Host};
use std::alloc::Global;
use std::sync::Wait;
use trace_tables::{Sink, SinkFault};

/// Takes bytes as far as it has memory for them, and knows all of them. After 2^64 - 1 failures it waits for ever.
#[derive(Drop)]
pub struct Sheet<R: Wait + Copy> {
    rt: R,
    pub bytes: Vec<u8>,
    failures: u64,
}

impl<R: Wait + Copy> Sheet<R> {
    fn new(rt: R, alloc: Global) -> Self
        ensures empty { result.bytes.items ≡ [] }
        ensures fresh { result.failures ≡ 0 }
    {
        Sheet {
            rt,
            bytes: Vec::new(alloc),
            failures: 0,
        }
    }
}

fn wait_for_ever<R: Wait>(rt: &R)
    ensures { ⊥ }
{
    for _ in rt.forever() {}
    unreachable!()
}

impl<R: Wait + Copy> Sink for Sheet<R> {
    ghost use Rattle.std.specs.Prelude.{Some};

    ghost taken = { λ sheet. Some sheet.bytes.items };

    ghost failures = { λ sheet. sheet.failures };

    fn write(&mut self, bytes: &[u8]) -> Result<usize, SinkFault> {
        if self.bytes.extend_from_slice(bytes).is_ok() {
            return Ok(bytes.len());
        }
        if self.failures == u64::MAX {
            wait_for_ever(&self.rt);
        }
        self.failures += 1;
        Err(SinkFault)
    }
}

/// A host with the file `net.toml`, the only one that can be read. All files can be created except `no/file`.
#[derive(Drop)]
pub struct TellingHost<R: Wait + Copy> {
    rt: R,
    alloc: Global,
    /// The contents of `net.toml`.
    pub net: Vec<u8>,
    /// The file that was given back last.
    pub last: Option<Sheet<R>>,
    output: Sheet<R>,
    errors: Sheet<R>,
}

impl<R: Wait + Copy + Send> Host for TellingHost<R> {
    ghost use Rattle.std.proofs.Common.{refl, true, false, Some, ◌≡◌, ◌≢◌, codes, MatchBool, MatchOption};

    type File = Sheet<R>;

    type Output = Sheet<R>;

    type Errors = Sheet<R>;

    ghost outside = { record {
      gives = λ host path given. MatchOption given (path ≢ codes "net.toml") (λ bytes. (path ≡ codes "net.toml") × (bytes ≡ host.net.items));
      makes = λ _ path is_made. MatchBool is_made (path ≢ codes "no/file") (path ≡ codes "no/file");
      tells = λ _ first second is_one. first ≡ second → is_one ≡ true;
      output = λ host. host.output;
      errors = λ host. host.errors;
      with_output = λ host out. record host { output = out };
      with_errors = λ host out. record host { errors = out };
      made = λ host _. host;
      closed = λ host _ file. record host { last = Some file };
      missed = λ host _. host;
      wrote = λ sheet. Some sheet.bytes.items;
      file_failures = λ sheet. sheet.failures;
      showed = λ sheet. Some sheet.bytes.items;
      output_failures = λ sheet. sheet.failures;
      said = λ sheet. Some sheet.bytes.items;
      errors_failures = λ sheet. sheet.failures;
    } };

    ghost lawful = { record {
      equal_paths = λ _ _ _ _ told. told refl;
      output_stays = λ _ _. refl;
      errors_beside = λ _ _. refl;
      errors_stay = λ _ _. refl;
      output_beside = λ _ _. refl;
      output_at_made = λ _ _. refl;
      errors_at_made = λ _ _. refl;
      output_at_closed = λ _ _ _. refl;
      errors_at_closed = λ _ _ _. refl;
      output_at_missed = λ _ _. refl;
      errors_at_missed = λ _ _. refl;
      file_took = λ _. refl;
      file_failed = λ _. refl;
      output_took = λ _. refl;
      output_failed = λ _. refl;
      errors_took = λ _. refl;
      errors_failed = λ _. refl;
      output_same = λ _. refl;
      errors_same = λ _. refl;
      errors_before_made = λ _ _ _. refl;
      makes_beside = λ _ _ _ _ is. is;
    } };

    fn is_one_file(&self, first: &str, second: &str) -> bool {
        first == second
    }

    fn read(&mut self, alloc: Global, path: &str) -> Result<Vec<u8>, FileFault> {
        if path != "net.toml" {
            return Err(FileFault::Device);
        }
        match Vec::from_slice(alloc, self.net.as_slice()) {
            Ok(bytes) => Ok(bytes),
            Err(_) => Err(FileFault::OutOfMemory),
        }
    }

    fn make(&mut self, path: &str) -> Result<Sheet<R>, FileFault> {
        if path == "no/file" {
            return Err(FileFault::Device);
        }
        Ok(Sheet::new(self.rt, self.alloc))
    }

    fn close(&mut self, _path: &str, file: Sheet<R>) {
        self.last = Some(file);
    }

    fn output(&mut self) -> &mut Sheet<R> {
        &mut self.output
    }

    fn errors(&mut self) -> &mut Sheet<R> {
        &mut self.errors
    }

    fn is_terminal(&self) -> bool {
        false
    }
}
