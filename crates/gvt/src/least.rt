//! The least of floors and mail, and why it is GVT.
ghost use Rattle.std.specs.Prelude.{◌≡◌, ℕ, ◌+◌, ◌<◌, List, Some, length, slice_get};
ghost use Rattle.vlink.specs.declared.message.Message.{Message};
ghost use Rattle.virtual_time.specs.Law.{lowest, times_of, Simulation, World, gvt_over};
ghost use Rattle.antimessages.specs.Letters.{Store};
ghost use Rattle.vlink.specs.Order.{message_order};
ghost use Rattle.antimessages.specs.Mailing.{letters_for};
ghost use Rattle.gvt.specs.Horizon.{Floors as Floored, horizon_over};

use crate::floors::Floors;
use antimessages::Mail;
use vlink::{Time, earlier};

/// Returns the least of all floors and of the times of all letters in the mail, or the moment after the end. GVT is set to it (Jefferson,
/// "Virtual Time", ACM TOPLAS 7(3), 1985). The mail may be of more processes than the floors, or of fewer. Takes no memory.
pub fn horizon(floors: &Floors, mail: &Mail) -> Time
    ensures { result ≡ horizon_over floors.now mail.now }
{
    let mut horizon = earliest_floor(floors);
    for process in 0..mail.processes() {
        horizon = earliest_letter(mail, process, horizon);
    }
    horizon
}

/// If the floors and the mail are those of a world, with a floor and a queue of letters for each process, `horizon` returns just what the
/// step Gvt sets there.
pub fn gvt_law<S, K, N>()
    ensures { (f : Simulation Message S K N) → ((m : Message) → f.rules.order.time m ≡ m.time) → (w : World Message S) (floors : Floored) (mail : List Store) →
        f.processes ≡ length floors.floors → f.processes ≡ length mail → f.until ≡ floors.until →
        ((p : ℕ) → p < f.processes → slice_get floors.floors p ≡ Some (w.floors p)) →
        ((p : ℕ) → p < f.processes → letters_for p mail ≡ w.mail p) →
        horizon_over floors mail ≡ gvt_over f f.processes w }
{}

/// Returns the least of all floors, or the moment after the end.
fn earliest_floor(floors: &Floors) -> Time
    ensures { result ≡ lowest (floors.now.until + 1) floors.now.floors }
{
    let mut earliest = floors.end();
    for process in 0..floors.processes() {
        if let Some(floor) = floors.floor(process) {
            earliest = earlier(floor, earliest);
        }
    }
    earliest
}

/// Returns the least time of the letters for this process, or the moment if that is earlier.
fn earliest_letter(mail: &Mail, process: u16, moment: Time) -> Time
    ensures { result ≡ lowest moment (times_of message_order (letters_for process mail.now)) }
{
    let mut earliest = moment;
    for place in 0..mail.count(process) {
        if let Some(letter) = mail.look(process, place) {
            earliest = earlier(letter.message.time, earliest);
        }
    }
    earliest
}
