//! Lists the steps that letters that are taken, and words of a group, represent.
ghost use Rattle.std.specs.Prelude.{true, ◌≡◌, ◌+◌, ◌<◌, ◌≤◌, ◌^◌, ◌∷◌, [], ◌++◌, ℕ, map, length, vec_len, vec_capacity};
ghost use Rattle.virtual_time.specs.Law.{behind};
ghost use Rattle.virtual_time.specs.declared.step.Step.TheVariants.{Take};
ghost use Rattle.group_queues.specs.Block.{steps_of_word, steps_told};
ghost use Rattle.group_boxes.specs.Boxing.{waiting_for};

use group_boxes::Boxes;
use group_hand::{Word, Words};
use vlink::{Letter, Step};

/// Lists a Take for each letter, the first of the mail of its receiver. The room for these steps was made before.
pub(crate) fn list_takes(steps: &mut Vec<Step>, letters: &[Letter])
    requires room { vec_len steps.old + length letters.now ≤ vec_capacity steps.old }
    ensures { steps.new.items ≡ steps.old.items ++ map (λ l. Take l.message.receiver 0) letters.now }
{
    for letter in letters {
        steps.push_reserved(Step::Take {
            process: u32::from(letter.message.receiver),
            place: 0,
        });
    }
}

/// Lists the steps that the words of a stored block represent, each Take behind the letters that are in transit. The room for them was made
/// before.
pub(crate) fn list_block(steps: &mut Vec<Step>, words: &Words, boxes: &Boxes)
    requires keeps { words.now.keeps ≡ true }
    requires room { vec_len steps.old + length (steps_told words.now.words) ≤ vec_capacity steps.old }
    ensures { steps.new.items ≡ steps.old.items ++ map (behind (waiting_for boxes.now)) (steps_told words.now.words) }
{
    list_words(steps, words.list(), boxes);
}

/// Lists the steps that these words represent, each Take behind the letters that are in transit. The room for them was made before.
fn list_words(steps: &mut Vec<Step>, words: &[Word], boxes: &Boxes)
    requires room { vec_len steps.old + length (steps_told words.now) ≤ vec_capacity steps.old }
    ensures { steps.new.items ≡ steps.old.items ++ map (behind (waiting_for boxes.now)) (steps_told words.now) }
{
    for did in words {
        list_word(steps, *did, boxes);
    }
}

/// Lists the steps that this word represents.
fn list_word(steps: &mut Vec<Step>, did: Word, boxes: &Boxes)
    requires room { vec_len steps.old + length (steps_of_word did) ≤ vec_capacity steps.old }
    ensures items { steps.new.items ≡ steps.old.items ++ map (behind (waiting_for boxes.now)) (steps_of_word did) }
    ensures len { vec_len steps.new ≡ vec_len steps.old + length (steps_of_word did) }
    ensures capacity { vec_capacity steps.new ≡ vec_capacity steps.old }
{
    match did {
        Word::Ran { process } => {
            let process = u32::from(process);
            steps.push_reserved(Step::Run { process });
            steps.push_reserved(Step::Post { process });
        }
        Word::Home { process } => {
            let place = boxes.waiting_count(process);
            let process = u32::from(process);
            steps.push_reserved(Step::Take { process, place });
            steps.push_reserved(Step::Arrive { process });
        }
        Word::Taken { process } => {
            let place = boxes.waiting_count(process);
            let process = u32::from(process);
            steps.push_reserved(Step::Take { process, place });
        }
        Word::Arrived { process } => {
            let process = u32::from(process);
            steps.push_reserved(Step::Arrive { process });
            steps.push_reserved(Step::Post { process });
        }
        Word::Committed { process } => {
            let process = u32::from(process);
            steps.push_reserved(Step::Commit { process });
        }
    }
}
