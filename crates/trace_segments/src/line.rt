//! Rows of comma-separated fields, laid out by a writer over a text.
ghost use Rattle.std.specs.Prelude.{◌≡◌, ℕ, [], List, map, OnOk, OnErr, IfOk, IsErr};
ghost use Rattle.trace_segments.specs.Text.{line};
ghost use Rattle.trace_segments.specs.Writing.{Holds, Adds};

use csv::{Error, Writer, WriterBuilder};
use std::alloc::Global;

/// Makes a writer of rows without text.
pub fn empty(alloc: Global) -> Writer<Vec<u8>>
    ensures { Holds result [] }
{
    WriterBuilder::new().from_writer(Vec::new(alloc))
}

/// Appends a row of these fields. An error is the library's own.
pub fn push(out: &mut Writer<Vec<u8>>, fields: &[&[u8]]) -> Result<(), Error>
    ensures { OnOk result (Adds out.old out.new (line (map (λ f. f.now) fields.now))) }
{
    out.write_fields(fields)
}

/// Returns the text that a writer holds, if all rows were appended. An error is the library's own.
pub fn text_of(out: Writer<Vec<u8>>, put: Result<(), Error>) -> Result<Vec<u8>, Error>
    ensures text { IfOk result (λ bytes. (text : List ℕ) → Holds out text → bytes.items ≡ text) }
    ensures put { OnErr put (IsErr result) }
{
    match put {
        Ok(()) => held(out),
        Err(error) => Err(error),
    }
}

/// Returns the text that a writer holds.
fn held(out: Writer<Vec<u8>>) -> Result<Vec<u8>, Error>
    ensures { IfOk result (λ bytes. (text : List ℕ) → Holds out text → bytes.items ≡ text) }
{
    match out.into_inner() {
        Ok(bytes) => Ok(bytes),
        Err(error) => Err(error.into_error()),
    }
}
