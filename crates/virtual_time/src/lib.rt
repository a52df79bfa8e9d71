//! The theory of a Time Warp simulation: its definitions, and theorems that hold in every run, whatever code does the steps.
//!
//! The files of `specs` define it, in this order:
//! - `Rules`: messages in their order, and what an actor does with one
//! - `Lists`: lists of messages
//! - `Simulation`: processes, offers, and the laws that both must meet
//! - `OneThread`: the run with which every other run is compared
//! - `Letters`: messages with a sign, and signed counts
//! - `Part`: one process, which runs ahead and rolls back
//! - `World`: processes with mail, floors and GVT, and the six steps
//! - `Safe`: the count law, what floors bound, a safe world and a finished world
//! - `Own`: what a process does alone
//! - `Well`: what holds of a process alone
//! - `SafePart`: what holds of a process below a GVT that it has seen
//! - `Journal`: a run that is put together from what each process did at one go
//!
//! In `proofs`, `Cut`, `OneThread` and `OneThreadLater` are about the one-thread run. Files named `Well..` are about one process alone,
//! files named `Sound..` about one process in the world, and files named `Kept..` about the world. `Safety` has the theorem, `SafePart` and
//! `Journal` have the laws of these names, and `Examples` computes small cases. Code that represents a process also uses `Reading`,
//! `Rolling` and `Handling`.
#![tactic(auto)]

mod letter;
mod moved;
mod row;
mod step;

ghost use Rattle.std.specs.Prelude.{ℕ, ◌+◌, ◌≡◌, ◌<◌, ◌≤◌, Bool, true, false, List, ◌++◌, [], ◌∷◌, map, length, replicate};
ghost use Rattle.virtual_time.specs.Rules.{Rules, IsOrder, reached, sent, rowed, rows_at};
ghost use Rattle.virtual_time.specs.Lists.{IsNumbered, IsAscending, IsIn, times_in, earlier};
ghost use Rattle.virtual_time.specs.Simulation.{Simulation, Laws, made, put};
ghost use Rattle.virtual_time.specs.OneThread.{IsBelow, one, events};
ghost use Rattle.virtual_time.specs.Letters.{IsNamed};
ghost use Rattle.virtual_time.specs.declared.letter.Letter.{Letter};
ghost use Rattle.virtual_time.specs.Part.{Part, opened, undo_all};
ghost use Rattle.virtual_time.specs.World.{World, start, step, run, gvt_over, is_enabled};
ghost use Rattle.virtual_time.specs.declared.step.Step.{Step};
ghost use Rattle.virtual_time.specs.declared.step.Step.TheVariants.{Take};
ghost use Rattle.virtual_time.specs.Safe.{Safe, history, CountLaw, NothingBefore, IsFinished, IsWhole};
ghost use Rattle.virtual_time.specs.Own.{Act, acted, local, own};
ghost use Rattle.virtual_time.specs.Own.Act.{Emptying, Moves};
ghost use Rattle.virtual_time.specs.Well.{IsWell, SendsKept};
ghost use Rattle.virtual_time.specs.SafePart.{IsSafePart, MayAct};
ghost use Rattle.virtual_time.specs.Journal.{Entry, Posted, Published, steps_of, acts_of, own_in, reach, after_own, AreEnabled, fetched, delivered_block};
ghost use Rattle.virtual_time.specs.Groups.{AreBy, AreDone, IsSafeGroup, behind, done_by, in_hand, joined, waiting_in};
ghost use Rattle.virtual_time.specs.declared.moved.Move.{Move};
ghost use Rattle.virtual_time.specs.declared.moved.Move.TheVariants.{Ran};

pub use letter::{Letter, Sign};
pub use moved::Move;
pub use row::Row;
pub use step::Step;

/// The headline. It holds for every simulation that meets its laws, whatever steps are done, in whatever order, and however many. It does
/// not state progress: GVT need not rise, and a run need not finish.
///
/// The rules are those of Jefferson, "Virtual Time", ACM TOPLAS 7(3), 1985: rollback by antimessages, GVT, and commitment of what is below
/// it. Undoing an event by a record, instead of by a saved state, is reverse computation (Carothers, Perumalla and Fujimoto). The order of
/// messages of one moment, by receiver, sender, number and body, is this project's own (profile).
///
/// - `safe`: at each process the committed events are the first ones of the one-thread run. Undoing all done events would leave the state
///   after just these. With the done events below GVT they are all events of the one-thread run below GVT. No letter and no unhandled
///   message is earlier than GVT. Each done event below GVT has the signed count 1.
/// - `counts`: messages and antimessages balance (the count law, for each message).
/// - `once`: no message is made twice, by offers and events together. So the count law adds up to 1 or 0.
/// - `handled_once`: no message occurs twice among the committed and done events of a process.
/// - `seen`: for a moment that is not above GVT, such as an older GVT, the committed and done events before it are exactly those of the
///   one-thread run before it.
/// - `rises`: GVT never falls.
/// - `never_undone`: the events of a process below GVT are the same after all later steps.
/// - `ascend`: the events of a process, first the committed ones and then the done ones, ascend in the message order.
/// - `committed_early`: each committed event is earlier than GVT.
/// - `floors`: no letter of the tray or outbox of a process, and no unhandled message, is earlier than its floor.
/// - `gvt_low`: GVT is at most the floor of each process.
/// - `outboxes`: each letter of an outbox, of either sign, goes to a process of the simulation.
/// - `rows`: at each process, the rows of the one-thread run are those of its events in their order, from the opening state on.
/// - `whole`: in a finished world the committed events and their rows, at each process, are those of the whole one-thread run.
/// - `alone`: each process is what its own acts make of its opening state. Other processes, mail and GVT do not enter.
/// - `stays`: a step that is not enabled leaves the very same world.
pub fn headline_law<M, S, K, N>()
    ensures safe { (f : Simulation M S K N) → Laws f → (steps : List Step) → Safe f (run f steps (start f)) }
    ensures counts { (f : Simulation M S K N) → Laws f → (steps : List Step) (m : M) → CountLaw f (run f steps (start f)) m }
    ensures once { (f : Simulation M S K N) → Laws f → (steps : List Step) (m : M) → made f (history f (run f steps (start f))) m ≤ 1 }
    ensures handled_once { (f : Simulation M S K N) → Laws f → (steps : List Step) (p : ℕ) (m : M) →
        times_in f.rules.order m (history f (run f steps (start f)) p) ≤ 1 }
    ensures seen { (f : Simulation M S K N) → Laws f → (steps : List Step) (g : ℕ) → g ≤ (run f steps (start f)).gvt → (p : ℕ) →
        IsBelow f p g (earlier f.rules.order g (history f (run f steps (start f)) p)) }
    ensures rises { (f : Simulation M S K N) → Laws f → (steps more : List Step) → (run f steps (start f)).gvt ≤ (run f (steps ++ more) (start f)).gvt }
    ensures never_undone { (f : Simulation M S K N) → Laws f → (steps more : List Step) (p : ℕ) →
        earlier f.rules.order (run f steps (start f)).gvt (history f (run f (steps ++ more) (start f)) p)
        ≡ earlier f.rules.order (run f steps (start f)).gvt (history f (run f steps (start f)) p) }
    ensures ascend { (f : Simulation M S K N) → Laws f → (steps : List Step) (p : ℕ) → IsAscending f.rules.order (history f (run f steps (start f)) p) }
    ensures committed_early { (f : Simulation M S K N) → Laws f → (steps : List Step) (p : ℕ) (m : M) →
        IsIn f.rules.order m ((run f steps (start f)).parts p).committed → f.rules.order.time m < (run f steps (start f)).gvt }
    ensures floors { (f : Simulation M S K N) → Laws f → (steps : List Step) (p : ℕ) → p < f.processes →
        NothingBefore f ((run f steps (start f)).floors p) ((run f steps (start f)).parts p) }
    ensures gvt_low { (f : Simulation M S K N) → Laws f → (steps : List Step) (p : ℕ) → p < f.processes →
        (run f steps (start f)).gvt ≤ (run f steps (start f)).floors p }
    ensures outboxes { (f : Simulation M S K N) → Laws f → (steps : List Step) (p : ℕ) (m : M) →
        IsNamed f.rules.order m ((run f steps (start f)).parts p).outbox → f.rules.order.receiver m < f.processes }
    ensures rows { (f : Simulation M S K N) → Laws f → (event_count p : ℕ) → rows_at p (one f event_count).rows ≡ rowed f.rules (f.opening p) (events f event_count p) }
    ensures whole { (f : Simulation M S K N) → Laws f → (steps : List Step) → IsFinished f (run f steps (start f)) → IsWhole f (run f steps (start f)) }
    ensures alone { (f : Simulation M S K N) (steps : List Step) (p : ℕ) →
        (run f steps (start f)).parts p ≡ local f.rules (f.opening p) (own f p steps (start f)) (opened (f.opening p)) }
    ensures stays { (f : Simulation M S K N) (x : Step) (w : World M S) → is_enabled f x w ≡ false → step f x w ≡ w }
{}

/// The law of one process. It holds whatever letters come to the process, also letters that no run would send, and in whatever order the
/// process acts. A good state is one on which the law of undoing holds; a message is handled only in such a state. Rollback is that of
/// Jefferson, "Virtual Time", ACM TOPLAS 7(3), 1985, by reverse computation (Carothers, Perumalla and Fujimoto).
///
/// - `opened`: a process that has done nothing is well.
/// - `acts`: a process that is well stays well at each act: its state is what its committed and done events make of the opening state, and
///   the done events ascend, are present, and come before each present message that is not done.
/// - `sends`: each act but the emptying of the outbox changes the signed count of each message there by as much as it changes how often the
///   committed and done events sent that message. So an undone event takes back what it sent, and nothing else.
/// - `undone`: undoing all done events leaves the state that the committed ones alone make.
/// - `sent_once`: if each message of an actor takes the next number, no message is sent twice. So the counts of `sends` are 1 or 0.
pub fn process_law<M, S, K, N>()
    ensures opened { (r : Rules M S K N) (good : S → Bool) (opening : S) → IsWell r (λ s. good s ≡ true) opening (opened opening) }
    ensures acts { (r : Rules M S K N) → IsOrder r.order → (good : S → Bool) → ((s : S) (e : M) → good s ≡ true → r.undo (r.after s e) e (r.kept s e) ≡ s) →
        (opening : S) (part : Part M S) (a : Act M) → IsWell r (λ s. good s ≡ true) opening part → (a ≡ Moves Ran → good part.state ≡ true) →
        IsWell r (λ s. good s ≡ true) opening (acted r opening a part) }
    ensures sends { (r : Rules M S K N) → IsOrder r.order → (good : S → Bool) → ((s : S) (e : M) → good s ≡ true → r.undo (r.after s e) e (r.kept s e) ≡ s) →
        (opening : S) (part : Part M S) (a : Act M) → IsWell r (λ s. good s ≡ true) opening part → (a ≡ Moves Ran → good part.state ≡ true) → (a ≡ Emptying → ⊥) →
        (m : M) → SendsKept r opening part (acted r opening a part) m }
    ensures undone { (r : Rules M S K N) (good : S → Bool) → ((s : S) (e : M) → good s ≡ true → r.undo (r.after s e) e (r.kept s e) ≡ s) →
        (opening : S) (part : Part M S) → IsWell r (λ s. good s ≡ true) opening part → undo_all r opening part ≡ reached r opening part.committed }
    ensures sent_once { (r : Rules M S K N) → IsOrder r.order → ((s : S) (e : M) → IsNumbered r.order.number (r.counter s) (r.sends s e)) →
        ((s : S) (e : M) → r.counter (r.after s e) ≡ r.counter s + length (r.sends s e)) →
        (opening : S) (events : List M) (m : M) → times_in r.order m (sent r opening events) ≤ 1 }
{}

/// The law of one process that saw GVT at some moment, and keeps using that moment while GVT rises.
///
/// - `there`: in every run each process is safe below GVT (`IsSafePart`).
/// - `acts`: a process that is safe below a moment stays safe at each act, if a letter that is delivered is not earlier than the moment,
///   and an event that is committed is earlier.
pub fn seen_law<M, S, K, N>()
    ensures there { (f : Simulation M S K N) → Laws f → (steps : List Step) (p : ℕ) → p < f.processes →
        IsSafePart f p (run f steps (start f)).gvt ((run f steps (start f)).parts p) }
    ensures acts { (f : Simulation M S K N) → Laws f → (p g : ℕ) → p < f.processes → (a : Act M) (part : Part M S) →
        IsSafePart f p g part → MayAct f g a part → IsSafePart f p g (acted f.rules (f.opening p) a part) }
{}

/// The law of a journal. An entry records what one process did at one go; the law states what each entry makes of the world.
///
/// - `takes`: letters at the front of a process's mail go to its tray, its floor falls to the least of their times, and all else stays.
/// - `posts`: if each step of a block is enabled when its turn comes, the process does these steps, its outbox goes to the mail, its floor
///   becomes the least moment of what it has left, and all other floors and processes stay.
/// - `publishes`: only GVT changes: it becomes the least of the floors and of the times of the letters in the mail.
/// - `later`: what is enabled at one GVT is enabled at a later one.
/// - `alone`: if an entry does what it records to its process, and nothing to any other, each process is what its own entries make of it.
pub fn journal_law<M, S, K, N>()
    ensures takes { (f : Simulation M S K N) (p : ℕ) → p < f.processes → (taken rest : List (Letter M)) (w : World M S) → w.mail p ≡ taken ++ rest →
        run f (replicate (length taken) (Take p 0)) w ≡ fetched f p taken rest w }
    ensures posts { (f : Simulation M S K N) (p : ℕ) → p < f.processes → (block : List Move) (w : World M S) →
        AreEnabled f (f.opening p) w.gvt block (w.parts p) → run f (steps_of {M = M} p (Posted block)) w ≡ delivered_block f p block w }
    ensures publishes { (f : Simulation M S K N) (w : World M S) → run f (steps_of {M = M} 0 Published) w
        ≡ record { parts = w.parts; mail = w.mail; floors = w.floors; gvt = gvt_over f f.processes w } }
    ensures later { (f : Simulation M S K N) (opening : S) (g h : ℕ) → g ≤ h → (block : List Move) (part : Part M S) →
        AreEnabled f opening g block part → AreEnabled f opening h block part }
    ensures alone { (f : Simulation M S K N) (entries : List (Entry M)) (e : Entry M) →
        (reach f (entries ++ e ∷ [])).parts
        ≡ put e.process (local f.rules (f.opening e.process) (acts_of e.deed) ((reach f entries).parts e.process)) (reach f entries).parts →
        ((q : ℕ) → (reach f entries).parts q ≡ after_own f q (own_in q entries)) →
        (q : ℕ) → (reach f (entries ++ e ∷ [])).parts q ≡ after_own f q (own_in q (entries ++ e ∷ [])) }
{}

/// The law of groups. A group is a set of processes that one hand holds together, and that pass letters to each other at once. It does the
/// six steps on its own processes and on a mail of its own, with the GVT that it saw. Its journal records them later.
///
/// - `blocks`: the same steps in the world do what a group did in hand, if each Take looks behind the letters that wait there. Its
///   processes and their floors are those in hand. What it sent and did not take comes behind the mail of each process, also of those
///   elsewhere.
/// - `apart`: a block of some processes leaves all other processes and their floors as they were.
/// - `safe`: if each process of a group is safe below the GVT that the group saw, and no letter of the group is earlier, this stays so at
///   each step.
pub fn group_law<M, S, K, N>()
    ensures blocks { (f : Simulation M S K N) (ours : ℕ → Bool) (seen : ℕ) (block : List Step) (w : World M S) → seen ≤ w.gvt →
        AreBy ours block → AreDone f block (in_hand f seen w) →
        run f (map (behind (waiting_in f w)) block) w ≡ joined f ours (run f block (in_hand f seen w)) w }
    ensures apart { (f : Simulation M S K N) (theirs : ℕ → Bool) (block : List Step) (v : World M S) → AreBy theirs block → (p : ℕ) → theirs p ≡ false →
        ((done_by f block v).floors p ≡ v.floors p) × ((done_by f block v).parts p ≡ v.parts p) }
    ensures safe { (f : Simulation M S K N) → Laws f → (ours : ℕ → Bool) (seen : ℕ) (block : List Step) (v : World M S) → IsSafeGroup f ours seen v →
        AreBy ours block → AreDone f block v → IsSafeGroup f ours seen (run f block v) }
{}
