//! The result of a run by workers, from what each of them ended with.
ghost use Rattle.std.specs.Prelude.{◌≡◌, ◌≤◌, ◌⊎◌, ◌++◌, ◌∷◌, [], IsOk, IfErr, OnOk};
ghost use Rattle.turn_words.specs.Outcomes.{IsLeastOf};

use crate::refusal::Refusal;
use std::alloc::AllocError;

/// Adds one outcome behind the others. It fails only if memory is refused.
pub fn add_outcome<F: Refusal>(
    outcomes: &mut Vec<Result<(), F>>,
    outcome: Result<(), F>,
) -> Result<(), AllocError>
    ensures { OnOk result (outcomes.new.items ≡ outcomes.old.items ++ outcome ∷ []) }
{
    outcomes.push(outcome)?;
    Ok(())
}

/// Returns the fault with the least number of these outcomes, if any.
pub fn least_fault<F: Refusal>(outcomes: Vec<Result<(), F>>) -> Result<(), F>
    ensures { IsLeastOf F.rank outcomes.items result }
{
    let mut told = Ok(());
    for outcome in outcomes {
        told = lesser(told, outcome);
    }
    told
}

/// Returns the fault with the lesser number of two outcomes, if any.
fn lesser<F: Refusal>(one: Result<(), F>, other: Result<(), F>) -> Result<(), F>
    ensures either { (result ≡ one) ⊎ (result ≡ other) }
    ensures least { IfErr one (λ fault. IfErr result (λ told. F.rank told ≤ F.rank fault)) }
    ensures least_other { IfErr other (λ fault. IfErr result (λ told. F.rank told ≤ F.rank fault)) }
    ensures well { OnOk result (IsOk one × IsOk other) }
{
    match (one, other) {
        (Err(first), Err(second)) => Err(if first.number() <= second.number() {
            first
        } else {
            second
        }),
        (Err(first), Ok(())) => Err(first),
        (Ok(()), outcome) => outcome,
    }
}
