//! Plays the events of a row on an element or a node, writes their results, and undoes them.
ghost use Rattle.std.specs.Prelude.{◌≡◌, IsTrue};

use crate::tests::words::tell;
use reverse::Reversible;
use std::alloc::{AllocError, Global};

// What a row plays on.
pub trait Played: Reversible {
    // Reads the event of a word.
    fn event(word: &str) -> Self::Event;

    // Whether one more event can be handled.
    fn is_ready(&self) -> bool
        ensures { IsTrue result → Self.can_apply self.now };

    fn tell_answer(answer: &Self::Out, told: &mut String);

    fn tell_state(&self, told: &mut String);
}

// Writes the answers to the events of these words; then the state after them; then, as they are undone, the newest first, the state after
// each undo.
pub fn play<P: Played>(played: &mut P, words: &[&str], told: &mut String)
where
    P::Event: Drop,
    ensures back { played.new ≡ played.old }
{
    let [word, rest @ ..] = words else {
        tell(told, "|");
        return played.tell_state(told);
    };
    if !played.is_ready() {
        return;
    }
    let event = P::event(word);
    let (answer, kept) = played.apply(&event);
    P::tell_answer(&answer, told);
    play(played, rest, told);
    played.undo(&event, kept);
    played.tell_state(told);
}

// Writes the results of the script.
pub fn play_script<P: Played>(alloc: Global, played: &mut P, script: &str, told: &mut String)
where
    P::Event: Drop,
{
    let words: Result<Vec<&str>, AllocError> = script.split_whitespace().collect(alloc);
    if let Ok(words) = words {
        play(played, &words, told);
    }
}
