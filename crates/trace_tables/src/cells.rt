//! What is counted at each destination while rows come.
ghost use Rattle.std.specs.Prelude.{ℕ, ◌≡◌, ◌==◌, ◌-◌, ◌^◌, ◌<◌, ◌++◌, ◌∷◌, [], List, map, length, is_some, get_or, IfOk, OnOk};
ghost use Rattle.vlink.specs.declared.frame.VlId.{VlId};
ghost use Rattle.vlink.specs.declared.note.Cause.TheVariants.{Duplicate};
ghost use Rattle.vlink.specs.declared.note.Note.TheVariants.{Delivered, Dropped};
ghost use Rattle.vlink.specs.Letters.{Row};
ghost use Rattle.network.specs.Words.{place_by};
ghost use Rattle.trace_tables.specs.Cells.{cell_of, cell_place, cells_of};
ghost use Rattle.trace_tables.specs.Destinations.{destination};

use crate::latencies::Latencies;
use network::Network;
use std::alloc::{AllocError, Global};
use std::marker::Model;
use vlink::VlId;

/// What is counted at one destination: the latencies of the frames that were delivered there, and how many were dropped there as
/// duplicates.
#[derive(Clone, Copy)]
pub struct Cell {
    pub latencies: Latencies,
    pub duplicates: u64,
}

/// A cell for each destination of a network, by virtual link and then by process.
///
/// Clauses see the cells, and for each virtual link how many cells stand before its own.
#[derive(Drop)]
pub struct Cells {
    starts: Vec<usize>,
    cells: Vec<Cell>,
}

impl Model for Cells {
    ghost use Rattle.trace_tables.specs.Cells.{CellLists};

    ghost Value = { CellLists };

    ghost view = { λ c. record { starts = c.starts.items; cells = c.cells.items } };
}

/// Where the process stands among these, if it does.
#[inline(always)]
fn place_among(places: &[usize], process: usize) -> Option<usize>
    ensures { result ≡ place_by (λ place. process == place) places.now }
{
    for at in 0..places.len() {
        if process == places[at] {
            return Some(at);
        }
    }
    None
}

/// For each of these destinations a cell more, with nothing counted.
fn add_cells(cells: &mut Vec<Cell>, places: &[usize]) -> Result<(), AllocError>
    ensures { OnOk result ((vl : VlId) → cells.new.items ≡ cells.old.items ++ map (cell_of []) (map (destination vl) places.now)) }
{
    for _ in 0..places.len() {
        cells.push(Cell {
            latencies: Latencies::none(),
            duplicates: 0,
        })?;
    }
    Ok(())
}

impl Cells {
    /// Nothing is counted.
    pub fn none(alloc: Global, network: &Network) -> Result<Cells, AllocError>
        ensures { IfOk result (λ cells. cells ≡ cells_of network.now.vls []) }
    {
        let mut starts = Vec::new(alloc);
        let mut cells = Vec::new(alloc);
        for vl in 0..network.vl_count() {
            starts.push(cells.len())?;
            add_cells(&mut cells, network.destinations(vl))?;
        }
        Ok(Cells { starts, cells })
    }

    /// At which place the cell of a destination is, if the network has the destination.
    #[inline(always)]
    fn place_of(&self, network: &Network, vl: VlId, process: u16) -> Option<usize>
        requires { (rows : List Row) × (self.now ≡ cells_of network.now.vls rows) }
        ensures { result ≡ cell_place network.now.vls (destination vl process) }
    {
        let _rising = network.vl_count();
        match network.place_of(vl) {
            Some(link) => match place_among(network.destinations(link), usize::from(process)) {
                Some(at) => Some(self.starts[link] + at),
                None => None,
            },
            None => None,
        }
    }

    /// A frame was delivered at this process, `latency` ns after its offer. It is counted if this is a destination of its virtual link.
    #[inline(always)]
    pub fn add_latency(&mut self, network: &Network, vl: VlId, process: u16, latency: u64)
        requires { (earlier : List Row) × (self.old ≡ cells_of network.now.vls earlier) × (length earlier < 2 ^ 64 - 1) }
        ensures { (earlier : List Row) (row : Row) → self.old ≡ cells_of network.now.vls earlier → row.place ≡ process →
            row.note ≡ Delivered vl latency → self.new ≡ cells_of network.now.vls (earlier ++ row ∷ []) }
    {
        let _rising = network.vl_count();
        match self.place_of(network, vl, process) {
            Some(place) => self.cells[place].latencies.add(latency),
            None => {}
        }
    }

    /// A frame was dropped as a duplicate at this process. It is counted if this is a destination of its virtual link, and the answer is
    /// whether it is.
    #[inline(always)]
    pub fn add_duplicate(&mut self, network: &Network, vl: VlId, process: u16) -> bool
        requires { (earlier : List Row) × (self.old ≡ cells_of network.now.vls earlier) × (length earlier < 2 ^ 64 - 1) }
        ensures answer { result ≡ is_some (cell_place network.now.vls (destination vl process)) }
        ensures counted { (earlier : List Row) (row : Row) (size : ℕ) → self.old ≡ cells_of network.now.vls earlier → row.place ≡ process →
            row.note ≡ Dropped vl Duplicate size → self.new ≡ cells_of network.now.vls (earlier ++ row ∷ []) }
    {
        let _rising = network.vl_count();
        match self.place_of(network, vl, process) {
            Some(place) => {
                self.cells[place].duplicates += 1;
                true
            }
            None => false,
        }
    }

    /// Before which place the cells of a virtual link begin.
    pub fn start(&self, vl: usize) -> usize
        requires { vl < length self.now.starts }
        ensures { result ≡ get_or self.now.starts vl 0 }
    {
        self.starts[vl]
    }

    /// The cells.
    pub fn all(&self) -> &[Cell]
        ensures { result.now ≡ self.now.cells }
    {
        self.cells.as_slice()
    }

    /// What gives memory to them.
    pub fn allocator(&self) -> Global {
        *self.cells.allocator()
    }
}
