//! What one process did alone since its last post.
ghost use Rattle.std.specs.Prelude.{◌≡◌, ◌↔◌, List, IsTrue, [], ◌∷◌, ◌++◌, length, slice_get, OnOk, OnErr, IfOk};
ghost use Rattle.std.specs.Option.{option_map};
ghost use Rattle.virtual_time.specs.declared.moved.Move.{Move};
ghost use Rattle.journal.specs.Moves.{turn_moves, longer, moves_of};

use crate::turn::Turn;
use antimessages::OutOfMemory;
use std::alloc::Global;
use std::marker::Model;
use virtual_time::Move;

/// A turn, and the steps behind it that its counts do not cover.
#[derive(Drop)]
pub(crate) struct Longer {
    pub(crate) turn: Turn,
    pub(crate) rest: Vec<Move>,
}

/// How the steps are stored: a turn needs no allocation.
#[derive(Drop)]
pub(crate) enum MoveList {
    OneTurn(Turn),
    Listed(Box<Longer>),
}

/// The steps that a process did alone and that are not yet in the journal, in order.
#[derive(Drop)]
pub struct Block {
    list: MoveList,
}

impl Model for Block {
    ghost use Rattle.std.specs.Prelude.{List};
    ghost use Rattle.virtual_time.specs.declared.moved.Move.{Move};
    ghost use Rattle.journal.specs.Moves.{moves_of};

    ghost Value = { List Move };

    ghost view = { λ b. moves_of b.list };
}

impl Block {
    /// Makes a block without steps.
    pub fn new() -> Self
        ensures { result ≡ [] }
    {
        Block {
            list: MoveList::OneTurn(Turn {
                arrivals: 0,
                runs: 0,
                commits: 0,
            }),
        }
    }

    /// Returns the number of steps.
    pub fn len(&self) -> usize
        ensures { result ≡ length self.now }
    {
        match &self.list {
            MoveList::OneTurn(turn) => turn.len(),
            MoveList::Listed(longer) => longer.turn.len() + longer.rest.len(),
        }
    }

    /// Whether the block has no step.
    pub fn is_empty(&self) -> bool
        ensures { IsTrue result ↔ (self.now ≡ []) }
    {
        self.len() == 0
    }

    /// Returns the step number `at`, from 0, or none behind the last step.
    pub fn get(&self, at: usize) -> Option<Move>
        ensures { result ≡ slice_get self.now at }
    {
        match &self.list {
            MoveList::OneTurn(turn) => turn.get(at),
            MoveList::Listed(longer) => longer.get(at),
        }
    }

    /// Adds one step. `OutOfMemory` means that memory was refused; the steps are as before.
    pub fn push(&mut self, alloc: Global, moved: Move) -> Result<(), OutOfMemory>
        ensures pushed { OnOk result (self.new ≡ self.old ++ moved ∷ []) }
        ensures unchanged { OnErr result (self.new ≡ self.old) }
    {
        match &mut self.list {
            MoveList::OneTurn(turn) => {
                if !turn.add(moved) {
                    self.list = Longer::listed(alloc, *turn, moved)?;
                }
                Ok(())
            }
            MoveList::Listed(longer) => longer.push(moved),
        }
    }

    /// Removes the last step.
    pub fn pop(&mut self)
        ensures { (moves : List Move) (last : Move) → self.old ≡ moves ++ last ∷ [] → self.new ≡ moves }
    {
        match &mut self.list {
            MoveList::OneTurn(turn) => turn.pop(),
            MoveList::Listed(longer) => longer.pop(),
        }
    }
}

impl Longer {
    /// Makes a turn with one step behind it.
    fn new(alloc: Global, turn: Turn, moved: Move) -> Result<Longer, OutOfMemory>
        ensures { IfOk result (λ l. longer l ≡ turn_moves turn ++ moved ∷ []) }
    {
        let mut rest = Vec::new(alloc);
        rest.push(moved)?;
        Ok(Longer { turn, rest })
    }

    /// Makes the same, in the form in which the steps are stored.
    fn listed(alloc: Global, turn: Turn, moved: Move) -> Result<MoveList, OutOfMemory>
        ensures { IfOk result (λ list. moves_of list ≡ turn_moves turn ++ moved ∷ []) }
    {
        let longer = Longer::new(alloc, turn, moved)?;
        Ok(MoveList::Listed(Box::new(alloc, longer)?))
    }

    fn push(&mut self, moved: Move) -> Result<(), OutOfMemory>
        ensures pushed { OnOk result (longer self.new ≡ longer self.old ++ moved ∷ []) }
        ensures unchanged { OnErr result (longer self.new ≡ longer self.old) }
    {
        self.rest.push(moved)?;
        Ok(())
    }

    fn pop(&mut self)
        ensures { (moves : List Move) (last : Move) → longer self.old ≡ moves ++ last ∷ [] → longer self.new ≡ moves }
    {
        if self.rest.pop().is_none() {
            self.turn.pop();
        }
    }

    fn get(&self, at: usize) -> Option<Move>
        ensures { result ≡ slice_get (longer self.now) at }
    {
        let first = self.turn.len();
        if at < first {
            return self.turn.get(at);
        }
        self.rest.get(at - first).copied()
    }
}
