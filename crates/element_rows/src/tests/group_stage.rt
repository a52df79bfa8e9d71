//! Plays the words of a script on an exchange and its groups, and writes the answers, as `stage.rt` does.
//!
//! The numbers of a word stand behind colons, that of the group first: `work:1:16:28000` works with turn 16 and window 28000 ns, and
//! answers how many messages were handled, by the calls of the gate. `abroad` counts the letters that wait to be posted, and `seen` is the
//! GVT that the group saw.
ghost use Rattle.std.specs.Prelude.{◌≡◌, true};

use crate::tests::stage::{Stage, name_in, tell_step};
use crate::tests::words::{long_at, number_at, short_at};
use group_exchange::{Group, GroupExchange, GroupRun, collect, post, publish, work};
use journal::{Gate, PoolFault};
use network_runs::NetworkRun;
use nodes::Node;
use std::cell::Cell;
use std::marker::PhantomData;

// The run of a network, as a run of its nodes and lines in groups.
pub struct OfGroups<J: NetworkRun> {
    of: PhantomData<J>,
}

impl<J: NetworkRun> GroupRun<Node> for OfGroups<J> {
    ghost use Rattle.seqsim.specs.Networks.{setting_of};

    ghost setting = { setting_of J.plan };

    ghost keeps = { J.keeps };

    ghost names = { J.names };

    ghost owners = { J.owners };
}

// Counts the messages that were handled.
#[derive(Drop)]
pub struct Handled {
    count: Cell<u64>,
}

impl Handled {
    pub fn new() -> Self {
        Handled {
            count: Cell::new(0),
        }
    }

    // Returns how many messages were handled since the last call: a call that is made again answers those of its refused try too.
    fn take(&self) -> u64 {
        let count = self.count.get();
        self.count.set(0);
        count
    }
}

impl Gate for Handled {
    fn before(&self, _process: u16, _run: u64) {}

    fn after(&self, _process: u16, _run: u64) {
        self.count.set(self.count.get().saturating_add(1));
    }
}

// An exchange and its groups in hand.
#[derive(Drop)]
pub struct Groups<'a, J: NetworkRun> {
    pub exchange: &'a mut GroupExchange<Node, OfGroups<J>>,
    pub groups: &'a mut Vec<Group<Node, OfGroups<J>>>,
    pub handled: Handled,
}

impl<J: NetworkRun> Stage for Groups<'_, J> {
    fn act(&mut self, word: &str, _refused: &mut String) -> Result<Option<u64>, PoolFault> {
        let number = match name_in(word) {
            "publish" => publish(self.exchange)?.ns(),
            "steps" => self.exchange.steps(),
            "gvt" => self.exchange.gvt().ns(),
            _ => match self.groups.get_mut(usize::from(short_at(word, 1))) {
                Some(group) => act_on(group, self.exchange, &self.handled, word)?,
                None => return Ok(None),
            },
        };
        Ok(Some(number))
    }
}

// Returns the answer of a call on a group in hand. A group with a block is not allowed to collect.
fn act_on<J: NetworkRun>(
    group: &mut Group<Node, OfGroups<J>>,
    exchange: &mut GroupExchange<Node, OfGroups<J>>,
    handled: &Handled,
    word: &str,
) -> Result<u64, PoolFault> {
    match name_in(word) {
        "collect" if !group.has_block() => collect(group, exchange),
        "work" => {
            work(group, long_at(word, 2), number_at(word, 3), handled)?;
            Ok(handled.take())
        }
        "post" => {
            post(group, exchange)?;
            Ok(1)
        }
        "abroad" => Ok(group.letters_abroad().len() as u64),
        "seen" => Ok(group.gvt_seen().ns()),
        _ => Ok(u64::from(exchange.fits(group))),
    }
}

// Writes the steps of the journal.
pub fn tell_steps<J: NetworkRun>(exchange: &GroupExchange<Node, OfGroups<J>>, told: &mut String)
    requires { J.keeps ≡ true }
{
    for step in exchange.step_list() {
        tell_step(*step, told);
    }
}
