//! Plays the words of a script on an exchange and its processes, or on one and its groups (`group_stage.rt`), and writes the answers.
//!
//! A word is the name of a call. Its numbers stand behind colons, that of the process first: `collect:0:8` collects at most 8 letters,
//! `work:0:16:1` works with turn 16 and window 1 ns, `mail:0` counts the letters in a mail, and `before` and `after` are how often the gate
//! was called for a message. An answer is written as a number, 1 for yes or done, or as `none`, and a refusal as one word. The steps of the
//! journal stand behind a bar.
//!
//! A call that is refused memory is made again, and the second answer is written; for `work`, how many steps both tries did. So a row holds
//! with ample memory, and if any one growth of its calls is refused, except one of which a refused call had a part.
ghost use Rattle.std.specs.Prelude.{◌≡◌, true};

use crate::tests::words::{long_at, number_at, short_at, tell, tell_number, tell_numbers};
use journal::{Gate, PoolFault};
use network_runs::NetworkRun;
use nodes::Node;
use process_exchange::{Exchange, Held, collect, post, publish, work};
use process_segments::Of;
use std::cell::Cell;
use vlink::Step;

// Counts the calls of the gate, as long as the numbers of a process come in order.
#[derive(Drop)]
struct CountingGate {
    before: Cell<u64>,
    after: Cell<u64>,
}

// Counts a message with this number.
fn count_in_order(count: &Cell<u64>, run: u64) {
    if run == count.get() {
        count.set(run.saturating_add(1));
    }
}

impl Gate for CountingGate {
    fn before(&self, _process: u16, run: u64) {
        count_in_order(&self.before, run);
    }

    fn after(&self, _process: u16, run: u64) {
        count_in_order(&self.after, run);
    }
}

// What a script is played on.
pub trait Stage {
    // Returns the answer of the call or the question. None if the process or group does not exist.
    fn act(&mut self, word: &str, refused: &mut String) -> Result<Option<u64>, PoolFault>;
}

// Plays each word, and writes its answer.
pub fn play_words<S: Stage>(stage: &mut S, script: &str, told: &mut String, refused: &mut String) {
    for word in script.split_whitespace() {
        let answer = match stage.act(word, refused) {
            Err(PoolFault::OutOfMemory) => {
                tell_refused(name_in(word), refused);
                stage.act(word, refused)
            }
            answer => answer,
        };
        tell_answer(answer, told);
    }
    tell(told, "| ");
}

// An exchange and its processes in hand.
#[derive(Drop)]
struct Processes<'a, J: NetworkRun> {
    exchange: &'a mut Exchange<Node, Of<J>>,
    helds: &'a mut Vec<Held<Node, Of<J>>>,
    gate: CountingGate,
}

impl<J: NetworkRun> Stage for Processes<'_, J> {
    fn act(&mut self, word: &str, refused: &mut String) -> Result<Option<u64>, PoolFault> {
        act(self.exchange, self.helds, &self.gate, word, refused)
    }
}

// Plays on an exchange and its processes.
pub fn play_on_processes<J: NetworkRun>(
    exchange: &mut Exchange<Node, Of<J>>,
    helds: &mut Vec<Held<Node, Of<J>>>,
    script: &str,
    told: &mut String,
    refused: &mut String,
) {
    let gate = CountingGate {
        before: Cell::new(0),
        after: Cell::new(0),
    };
    let mut stage = Processes {
        exchange,
        helds,
        gate,
    };
    play_words(&mut stage, script, told, refused);
}

// Returns the name of the call that a word names.
pub fn name_in(word: &str) -> &str {
    word.split_once(':').unwrap_or((word, "")).0
}

fn tell_refused(call: &str, refused: &mut String) {
    tell(refused, call);
    tell(refused, " was refused memory\n");
}

// Returns the answer of the call, or of a question to the exchange, the gate or a process.
fn act<J: NetworkRun>(
    exchange: &mut Exchange<Node, Of<J>>,
    helds: &mut Vec<Held<Node, Of<J>>>,
    gate: &CountingGate,
    word: &str,
    refused: &mut String,
) -> Result<Option<u64>, PoolFault> {
    let number = match name_in(word) {
        "publish" => publish(exchange)?.ns(),
        "steps" => exchange.steps(),
        "gvt" => exchange.gvt().ns(),
        "mail" => letters(exchange, short_at(word, 1)),
        "before" => gate.before.get(),
        "after" => gate.after.get(),
        _ => match helds.get_mut(usize::from(short_at(word, 1))) {
            Some(held) => act_on(held, exchange, gate, word, refused)?,
            None => return Ok(None),
        },
    };
    Ok(Some(number))
}

// Returns how many letters the mail of a process has, up to 100.
fn letters<J: NetworkRun>(exchange: &Exchange<Node, Of<J>>, process: u16) -> u64 {
    let mut count = 0;
    for place in 0..100usize {
        if exchange.look(process, place).is_some() {
            count = place as u64 + 1;
        }
    }
    count
}

// Returns the answer of a call on a process in hand. A process with a block is not allowed to collect.
fn act_on<J: NetworkRun>(
    held: &mut Held<Node, Of<J>>,
    exchange: &mut Exchange<Node, Of<J>>,
    gate: &CountingGate,
    word: &str,
    refused: &mut String,
) -> Result<u64, PoolFault> {
    match name_in(word) {
        "collect" if held.pending() == 0 => {
            let count = collect(held, exchange, long_at(word, 2))?;
            Ok(u64::from(count))
        }
        "work" => do_work(held, gate, word, refused),
        "post" => {
            post(held, exchange)?;
            Ok(1)
        }
        "pending" => Ok(held.pending()),
        _ => Ok(u64::from(exchange.fits(held))),
    }
}

// Returns how many steps were done, if need be by two tries.
fn do_work<J: NetworkRun>(
    held: &mut Held<Node, Of<J>>,
    gate: &CountingGate,
    word: &str,
    refused: &mut String,
) -> Result<u64, PoolFault> {
    let (turn, window, before) = (long_at(word, 2), number_at(word, 3), held.pending());
    match work(held, turn, window, gate) {
        Err(PoolFault::OutOfMemory) => {
            tell_refused("work", refused);
            work(held, turn, window, gate)?;
            Ok(held.pending().saturating_sub(before))
        }
        answer => answer,
    }
}

fn tell_answer(answer: Result<Option<u64>, PoolFault>, told: &mut String) {
    match answer {
        Ok(Some(number)) => tell_number(told, number),
        Ok(None) => tell(told, "none"),
        Err(fault) => tell(told, name_of(fault)),
    }
    tell(told, " ");
}

// Returns the word for a refusal.
fn name_of(fault: PoolFault) -> &'static str {
    match fault {
        PoolFault::OutOfMemory => "memory",
        PoolFault::Exhausted => "exhausted",
        PoolFault::JournalFull => "full",
        PoolFault::Spawn => "spawn",
        PoolFault::Torn => "torn",
    }
}

// Writes the steps of the journal.
pub fn tell_journal<J: NetworkRun>(exchange: &Exchange<Node, Of<J>>, told: &mut String)
    requires { J.keeps ≡ true }
{
    for place in 0..exchange.steps() {
        if let Some(step) = exchange.step_at(place) {
            tell_step(step, told);
        }
    }
}

pub fn tell_step(step: Step, told: &mut String) {
    match step {
        Step::Take { process, place } => {
            tell_labelled("T:", &[u64::from(process), u64::from(place)], told);
        }
        Step::Arrive { process } => tell_labelled("A:", &[u64::from(process)], told),
        Step::Run { process } => tell_labelled("R:", &[u64::from(process)], told),
        Step::Post { process } => tell_labelled("P:", &[u64::from(process)], told),
        Step::Gvt => tell_labelled("G", &[], told),
        Step::Commit { process } => tell_labelled("C:", &[u64::from(process)], told),
    }
}

fn tell_labelled(label: &str, numbers: &[u64], told: &mut String) {
    tell(told, label);
    tell_numbers(told, numbers);
    tell(told, " ");
}
