//! The least of floors and of letters in transit.
ghost use Rattle.std.specs.Prelude.{◌≡◌, flat_map};
ghost use Rattle.virtual_time.specs.Law.{lowest, times_of};
ghost use Rattle.vlink.specs.Order.{message_order};

use crate::boxes::Boxes;
use gvt::Floors;
use vlink::{Time, earlier};

/// Returns the least of all floors and of the times of all letters in transit, or the moment if that is earlier. GVT is set to it.
pub fn horizon(boxes: &Boxes, floors: &Floors, moment: Time) -> Time
    ensures { result ≡ lowest (lowest moment floors.now.floors) (times_of message_order (flat_map (λ box. box) boxes.now.boxes)) }
{
    boxes.earliest_time(earliest_floor(floors, moment))
}

/// Returns the least of all floors, or the moment if that is earlier.
fn earliest_floor(floors: &Floors, moment: Time) -> Time
    ensures { result ≡ lowest moment floors.now.floors }
{
    let mut earliest = moment;
    for group in 0..floors.processes() {
        if let Some(floor) = floors.floor(group) {
            earliest = earlier(floor, earliest);
        }
    }
    earliest
}
