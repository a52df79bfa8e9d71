//! The two halves of a value that exists in proofs alone. Each half states the value. They always agree, since the value changes only
//! through both together.
#![tactic(auto)]

ghost use Rattle.std.specs.Prelude.{◌≡◌, ℕ};
ghost use base.Fraction.{full_share};
ghost use base.Share.{left, right};
ghost use denote.Sharing.{one};
ghost use Rattle.halves.specs.Ownership.{fraction};

use std::marker::{Model, PhantomData, Send, Sync};

/// One half of a value that both state. It has no bytes.
pub struct LeftHalf<T> {
    marker: PhantomData<T>,
    pub ghost name: { ℕ },
    pub ghost value: { T },
}

impl<T> Model for LeftHalf<T> {
    ghost also_owns = { λ b. fraction T.row b.name b.value (left full_share) };

    ghost also_shares = { λ b _. one (fraction T.row b.name b.value) };
}

/// The other half. It has no bytes.
pub struct RightHalf<T> {
    marker: PhantomData<T>,
    pub ghost name: { ℕ },
    pub ghost value: { T },
}

impl<T> Model for RightHalf<T> {
    ghost also_owns = { λ s. fraction T.row s.name s.value (right full_share) };

    ghost also_shares = { λ s _. one (fraction T.row s.name s.value) };
}

/// Makes the two halves of this value, under a new name.
pub fn pair<T>(value: &T) -> (LeftHalf<T>, RightHalf<T>)
    ensures name { result.0.name ≡ result.1.name }
    ensures left { result.0.value ≡ value.now }
    ensures right { result.1.value ≡ value.now }
{
    (
        LeftHalf {
            marker: PhantomData,
        },
        RightHalf {
            marker: PhantomData,
        },
    )
}

/// Two halves of one name state the same value.
pub fn agree_law<T>(left: &LeftHalf<T>, right: &RightHalf<T>)
    requires { left.now.name ≡ right.now.name }
    ensures { left.now.value ≡ right.now.value }
{}

/// Sets two halves of one name to another value.
pub fn tell<T>(left: &mut LeftHalf<T>, right: &mut RightHalf<T>, value: &T)
    requires { left.old.name ≡ right.old.name }
    ensures left { left.new.value ≡ value.now }
    ensures right { right.new.value ≡ value.now }
    ensures name { left.new.name ≡ left.old.name }
    ensures other { right.new.name ≡ right.old.name }
{}

impl<T> Drop for LeftHalf<T> {
    fn drop(self) {
        let Self { marker: _ } = self;
    }
}

impl<T> Drop for RightHalf<T> {
    fn drop(self) {
        let Self { marker: _ } = self;
    }
}

unsafe impl<T> Send for LeftHalf<T> {}

unsafe impl<T> Send for RightHalf<T> {}

unsafe impl<T> Sync for LeftHalf<T> {}

unsafe impl<T> Sync for RightHalf<T> {}
