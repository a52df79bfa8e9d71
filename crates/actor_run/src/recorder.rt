//! Takes the rows of a run.
ghost use Rattle.std.specs.Prelude.{◌≡◌, ◌++◌, ◌∷◌, [], List, OnOk};
ghost use Rattle.virtual_time.specs.Law.{rows_of};
ghost use Rattle.vlink.specs.Order.{message_order};
ghost use Rattle.vlink.specs.Letters.{Row};

use std::alloc::{AllocError, Global};
use vlink::{Message, Note, Row};

/// Takes the rows of a run, one after another: it stores them, or counts each and drops it.
pub trait Recorder {
    /// What the rows are taken for, such as the network in whose tables they are counted.
    type Purpose;

    /// These rows were taken, and no others.
    ghost has_taken: { Self → List Row → Type 0 };

    /// What the rows are taken for.
    ghost purpose: { Self → Self.Purpose };

    /// Takes the row of this note, of the event of this message at its receiver. It fails only if memory is refused.
    fn take(&mut self, message: &Message, note: &Note) -> Result<(), AllocError>
        requires { (rows : List Row) × has_taken self.old rows }
        ensures taken { OnOk result ((rows : List Row) → has_taken self.old rows →
            has_taken self.new (rows ++ record { message = message.now; place = message.now.receiver; note = note.now } ∷ [])) }
        ensures purpose { OnOk result (purpose self.new ≡ purpose self.old) };
}

/// Takes a row for each note that the event of this message gave. Most events give none.
#[inline(always)]
pub(crate) fn record<R: Recorder>(
    recorder: &mut R,
    message: &Message,
    notes: &[Note],
) -> Result<(), AllocError>
    requires { (rows : List Row) × R.has_taken recorder.old rows }
    ensures taken { OnOk result ((rows : List Row) → R.has_taken recorder.old rows → R.has_taken recorder.new (rows ++ rows_of message_order message.now notes.now)) }
    ensures purpose { OnOk result (R.purpose recorder.new ≡ R.purpose recorder.old) }
{
    for note in notes {
        recorder.take(message, note)?;
    }
    Ok(())
}

/// Stores all rows.
#[derive(Drop)]
pub(crate) struct AllRows {
    pub(crate) rows: Vec<Row>,
}

impl AllRows {
    /// Makes a recorder without rows.
    pub(crate) fn none(alloc: Global) -> Self
        ensures { result.rows.items ≡ [] }
    {
        AllRows {
            rows: Vec::new(alloc),
        }
    }
}

impl Recorder for AllRows {
    type Purpose = ();

    ghost has_taken = { λ all rows. all.rows.items ≡ rows };

    ghost purpose = { λ all. tt };

    /// It stays a call of its own, so that the message stays whole in memory: inlined into the loop of the run, its fields would be copied
    /// one by one.
    #[inline(never)]
    fn take(&mut self, message: &Message, note: &Note) -> Result<(), AllocError> {
        self.rows.push(Row {
            message: *message,
            place: message.receiver,
            note: *note,
        })?;
        Ok(())
    }
}
