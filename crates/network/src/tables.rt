//! The tables of a network, which answer questions by number.

use crate::wiring::{LinePlan, Outage, Way};

/// The tables of a network, which answer questions by number.
pub struct Tables {
    pub lines: Vec<LinePlan>,
    pub line_names: Vec<String>,
    /// The outages of each line.
    pub outages: Vec<Vec<Outage>>,
    /// For each node the ports by which virtual links leave it and enter it.
    pub meetings: Meetings,
    /// The destinations of each virtual link.
    pub destinations: Vec<Vec<usize>>,
    /// For each number the place of the virtual link that has it.
    pub places: Vec<Option<usize>>,
}

impl Drop for Tables {
    fn drop(self) {
        let Self {
            lines: _,
            line_names: _,
            outages: _,
            meetings: _,
            destinations: _,
            places: _,
        } = self;
    }
}

/// For each node the ports by which virtual links leave it, and those by which they enter it.
pub struct Meetings {
    pub departures: Vec<Vec<Way>>,
    pub arrivals: Vec<Vec<Way>>,
}

impl Drop for Meetings {
    fn drop(self) {
        let Self {
            departures: _,
            arrivals: _,
        } = self;
    }
}
