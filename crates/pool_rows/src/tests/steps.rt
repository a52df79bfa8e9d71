//! Searches the steps of a journal.
use vlink::Step;

// Returns in how many of the steps this process handled a message.
pub fn runs_of(steps: &[Step], process: usize) -> u64 {
    let mut runs = 0u64;
    for step in steps {
        if let Step::Run { process: found } = *step {
            if found as usize == process {
                runs = runs.saturating_add(1);
            }
        }
    }
    runs
}

// Returns the place of the first such step, or the number of steps if there is none.
pub fn place_of(steps: &[Step], wanted: Step) -> usize {
    for place in 0..steps.len() {
        if steps[place] == wanted {
            return place;
        }
    }
    steps.len()
}
