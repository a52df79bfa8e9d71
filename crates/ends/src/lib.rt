//! A run that one thread carries on, holding everything, comes to its end.
//!
//! In a round GVT is set, and each group of processes has a turn (`specs/Rounds`). Each world has a rank (`specs/Left`): a number that counts what
//! is left to do at GVT. It counts letters of that moment on their way, then unhandled messages of it, then floors that are not above it. No step
//! raises it while GVT stays, enabled or not, whoever does it. A round lowers it, or GVT rises. So rounds end.
#![tactic(auto)]

ghost use Rattle.std.specs.Prelude.{◌≡◌, ℕ, suc, ◌<◌, ◌≤◌, Bool, true, List, ◌++◌, map};
ghost use Rattle.virtual_time.specs.Law.{AreBy, Simulation, Laws, World, behind, start, run, gvt_over, in_hand, IsFinished, waiting_in};
ghost use Rattle.virtual_time.specs.declared.letter.Letter.{Letter};
ghost use Rattle.virtual_time.specs.declared.step.Step.{Step};
ghost use Rattle.ends.specs.Left.{rank};
ghost use Rattle.ends.specs.Rounds.{IsRound, IsTurn, Turn, steps_in, after_rounds};
ghost use Rattle.ends.specs.InHand.{AreAllFor, IsBlock, takes_of};

/// The law of the end. It holds for every simulation that meets its laws (`Laws`), and asks nothing else of it.
///
/// - `never_back`: whatever steps are done, in whatever order: as long as GVT stays, the rank never rises.
/// - `falls`: in a round GVT stays and the rank falls, if GVT has not passed the end.
/// - `ends`: the round in which GVT has passed the end leaves a finished world.
/// - `within`: GVT is at most the moment after the end.
/// - `finishes`: however the turns of each round are chosen, the world is finished after some number of rounds.
pub fn ends_law<M, S, K, N>()
    ensures never_back { (f : Simulation M S K N) → Laws f → (steps more : List Step) →
        (run f (steps ++ more) (start f)).gvt ≡ (run f steps (start f)).gvt → (run f steps (start f)).gvt ≤ f.until →
        rank f (run f (steps ++ more) (start f)) ≤ rank f (run f steps (start f)) }
    ensures falls { (f : Simulation M S K N) → Laws f → (steps : List Step) (turns : List Turn) → (run f steps (start f)).gvt ≤ f.until →
        IsRound f turns (run f steps (start f)) →
        ((run f (steps ++ steps_in turns) (start f)).gvt ≡ (run f steps (start f)).gvt)
        × (rank f (run f (steps ++ steps_in turns) (start f)) < rank f (run f steps (start f))) }
    ensures ends { (f : Simulation M S K N) → Laws f → (steps : List Step) (turns : List Turn) → f.until < (run f steps (start f)).gvt →
        IsRound f turns (run f steps (start f)) → IsFinished f (run f (steps ++ steps_in turns) (start f)) }
    ensures within { (f : Simulation M S K N) → Laws f → (steps : List Step) → (run f steps (start f)).gvt ≤ suc f.until }
    ensures finishes { (f : Simulation M S K N) → Laws f → (choose : List Step → List Turn) →
        ((steps : List Step) → gvt_over f f.processes (run f steps (start f)) ≡ (run f steps (start f)).gvt → IsRound f (choose steps) (run f steps (start f))) →
        (n : ℕ) × IsFinished f (run f (after_rounds choose n) (start f)) }
{}

/// The law of a turn. A group has what it holds in hand, in a small world of its own: no letter waits there at first, and it has the GVT that it saw.
///
/// - `whole`: if a group posts what it did before, takes all letters that wait for it, works in hand (`IsBlock`) and posts that, this is a turn in the
///   world.
pub fn turn_law<M, S, K, N>()
    ensures whole { (f : Simulation M S K N) → Laws f → (ours : ℕ → Bool) → ((p : ℕ) → ours p ≡ true → p < f.processes) → (w : World M S) →
        (old : List Step) → AreBy ours old → (letters : List (Letter M)) → AreAllFor f ours letters (run f old w) → (block : List Step) →
        IsBlock f ours block (in_hand f (run f (old ++ takes_of f.rules.order letters) w).gvt (run f (old ++ takes_of f.rules.order letters) w)) →
        IsTurn f ours ((old ++ takes_of f.rules.order letters) ++ map (behind (waiting_in f (run f (old ++ takes_of f.rules.order letters) w))) block) w }
{}
