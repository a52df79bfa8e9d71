//! The contents of the rows beside their nodes, with numbers in place of names.
ghost use Rattle.std.specs.Prelude.{◌≡◌, map};
ghost use Rattle.network.specs.Trees.{source_among, source_of};
ghost use Rattle.network.specs.Code.Views.{items_of, lists_of};

use crate::wiring::{Link, Outage};
use row_types::{Stream, VirtualLink};
use std::marker::Model;
use vlink::VlId;

/// A virtual link with its paths on the networks A and B. A path is a list of nodes.
///
/// Clauses see it as its plan.
pub struct Routed {
    link: VirtualLink,
    a: Vec<Vec<usize>>,
    b: Vec<Vec<usize>>,
}

impl Model for Routed {
    ghost use Rattle.network.specs.Plan.{VlPlan};
    ghost use Rattle.network.specs.Code.Views.{lists_of};

    ghost Value = { VlPlan };

    ghost view = { λ vl. record { link = vl.link; a = lists_of vl.a; b = lists_of vl.b } };
}

impl Drop for Routed {
    fn drop(self) {
        let Self {
            link: _,
            a: _,
            b: _,
        } = self;
    }
}

impl Routed {
    /// Makes a virtual link with these paths.
    pub fn new(link: VirtualLink, a: Vec<Vec<usize>>, b: Vec<Vec<usize>>) -> Self
        ensures { result ≡ record { link = link; a = lists_of a; b = lists_of b } }
    {
        Routed { link, a, b }
    }

    /// Returns the parameters of its frames.
    pub fn link(&self) -> VirtualLink
        ensures { result ≡ self.now.link }
    {
        self.link
    }

    /// Returns its paths on network A.
    pub fn a(&self) -> &[Vec<usize>]
        ensures { map items_of result.now ≡ self.now.a }
    {
        self.a.as_slice()
    }

    /// Returns its paths on network B.
    pub fn b(&self) -> &[Vec<usize>]
        ensures { map items_of result.now ≡ self.now.b }
    {
        self.b.as_slice()
    }

    /// Returns the node at which its frames begin, if it has a path.
    pub fn source(&self) -> Option<usize>
        ensures { result ≡ source_of self.now }
    {
        if self.a.is_empty() {
            source_among(self.b.as_slice())
        } else {
            source_among(self.a.as_slice())
        }
    }
}

/// Returns the node at which the first path begins.
pub fn source_among(paths: &[Vec<usize>]) -> Option<usize>
    ensures { result ≡ source_among (map items_of paths.now) }
{
    paths.first()?.first().copied()
}

/// A stream of a row of its own, and the virtual link that it offers frames to.
#[derive(Clone, Copy)]
pub struct VlStream {
    pub vl: VlId,
    pub stream: Stream,
}

/// The contents of the rows beside their nodes.
pub struct Numbered {
    pub links: Vec<Link>,
    pub outages: Vec<Outage>,
    pub vls: Vec<Routed>,
    pub streams: Vec<VlStream>,
}

impl Drop for Numbered {
    fn drop(self) {
        let Self {
            links: _,
            outages: _,
            vls: _,
            streams: _,
        } = self;
    }
}
