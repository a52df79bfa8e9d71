//! Numbers of processes: 16 bits in messages and calls, places in lists of all processes.
ghost use Rattle.std.specs.Prelude.{◌≡◌, ◌<◌};

/// Returns the number of the process at this place of a list of all processes. Of the list's length, it returns the number of processes.
pub fn process_number(place: usize) -> u16
    requires { place < 65536 }
    ensures { result ≡ place }
{
    place as u16
}
