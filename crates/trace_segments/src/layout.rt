//! Turns an error of the library that lays out rows into a fault: lack of memory only if it is that.
ghost use Rattle.std.specs.Prelude.{◌≡◌};
ghost use Rattle.std.specs.IoError.{error_kind};
ghost use Rattle.csv.specs.Reading.{error_kind as kind_of_row};
ghost use Rattle.trace_segments.specs.Layout.{row_fault, write_fault};

use crate::fault::OutFault;
use csv::{Error, ErrorKind};
use std::io;

/// Returns the fault for an error of a write to the text.
fn write_fault(error: &io::Error) -> OutFault
    ensures { result ≡ write_fault (error_kind error.now) }
{
    match error.kind() {
        io::ErrorKind::OutOfMemory => OutFault::OutOfMemory,
        _ => OutFault::Layout,
    }
}

/// Returns the fault for an error of a row.
pub fn row_fault(error: &Error) -> OutFault
    ensures { result ≡ row_fault (kind_of_row error.now) }
{
    match error.kind() {
        ErrorKind::OutOfMemory => OutFault::OutOfMemory,
        ErrorKind::Io(error) => write_fault(error),
        _ => OutFault::Layout,
    }
}

impl From<Error> for OutFault {
    ghost use Rattle.std.specs.Prelude.{◌≡◌};
    ghost use Rattle.csv.specs.Reading.{error_kind as kind_of_row};
    ghost use Rattle.trace_segments.specs.Layout.{row_fault};

    ghost from_gives = { λ error fault. fault ≡ row_fault (kind_of_row error) };

    fn from(error: Error) -> Self {
        row_fault(&error)
    }
}
