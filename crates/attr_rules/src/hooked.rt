//! Two closures that a caller stores as the row `host`.
ghost use Rattle.std.specs.Prelude.{◌≡◌, Some, refl};
ghost use Rattle.map_defs.specs.Values.{Meaning, KeepsWhole};
ghost use Rattle.attr_rules.specs.Stored.{AreAnswers, nameless, or_copy};
ghost use Rattle.attr_rules.specs.HookFacts.{nameless-lawful};

use crate::name::RuleName;
use crate::rule::{Hook, Rule};
use map_kind::Value;
use std::marker::PhantomData;

/// A type that says what a rule does. It has no values that matter: two closures that are stored under it answer what it
/// says.
pub trait HookName {
    ghost says: { Meaning };

    ghost keeps: { KeepsWhole says };
}

/// Merging by the bitwise or of each number, and splitting by copying. By itself it is a hook too, which knows no further
/// rules.
#[derive(Clone, Copy, Debug, PartialEq, Eq)]
pub struct OrCopy;

impl HookName for OrCopy {
    ghost says = { or_copy };

    ghost keeps = { λ v held. refl };
}

impl Rule for OrCopy {
    ghost meaning = { λ _. or_copy };

    ghost ready = { λ _. Unit };

    ghost whole = { λ _ _ v _. refl };

    fn merged(&self, x: Value, y: Value) -> Value {
        Value {
            a: x.a | y.a,
            b: x.b | y.b,
            c: x.c | y.c,
        }
    }

    fn share(&self, value: Value, _pieces: u32, _piece: u32) -> Option<Value> {
        Some(value)
    }
}

impl Hook for OrCopy {
    ghost hook = { λ _. nameless or_copy };

    ghost host = { λ _. refl };

    ghost lawful = { λ _ _. nameless-lawful or_copy (λ v held. refl) };

    fn knows(&self, _name: &str) -> bool {
        false
    }

    fn merged_by(&self, _name: RuleName, x: Value, _y: Value) -> Value {
        x
    }

    fn share_by(&self, _name: RuleName, value: Value, _pieces: u32, _piece: u32) -> Option<Value> {
        Some(value)
    }
}

/// A hook of two stored closures, which answer what `T` says. It knows no further rules.
#[derive(Drop)]
pub struct Hooked<
    T: HookName,
    M: Fn(Value, Value) -> Value,
    S: Fn(Value, u32, u32) -> Option<Value>,
> {
    merge: M,
    share: S,
    says: PhantomData<T>,
}

impl<T: HookName, M: Fn(Value, Value) -> Value, S: Fn(Value, u32, u32) -> Option<Value>> Hooked<
    T,
    M,
    S,
> {
    /// Stores two closures, which may be called on all values, and for each piece of some pieces, and answer what `T` says.
    pub fn new(merge: M, share: S) -> Hooked<T, M, S>
        requires { AreAnswers T.says (M.pre merge) (M.post merge) (S.pre share) (S.post share) }
        ensures { ⟦<Hooked<T, M, S> as Rule>⟧.ready result }
    {
        Hooked {
            merge,
            share,
            says: PhantomData,
        }
    }
}

impl<T: HookName, M: Fn(Value, Value) -> Value, S: Fn(Value, u32, u32) -> Option<Value>> Rule
    for Hooked<T, M, S> {
    ghost meaning = { λ h. T.says };

    ghost ready = { λ h. AreAnswers T.says (M.pre h.merge) (M.post h.merge) (S.pre h.share) (S.post h.share) };

    ghost whole = { λ h ready. T.keeps };

    fn merged(&self, x: Value, y: Value) -> Value {
        (self.merge)(x, y)
    }

    fn share(&self, value: Value, pieces: u32, piece: u32) -> Option<Value> {
        (self.share)(value, pieces, piece)
    }
}

impl<T: HookName, M: Fn(Value, Value) -> Value, S: Fn(Value, u32, u32) -> Option<Value>> Hook
    for Hooked<T, M, S> {
    ghost hook = { λ h. nameless T.says };

    ghost host = { λ h. refl };

    ghost lawful = { λ h ready. nameless-lawful T.says T.keeps };

    fn knows(&self, _name: &str) -> bool {
        false
    }

    fn merged_by(&self, _name: RuleName, x: Value, _y: Value) -> Value {
        x
    }

    fn share_by(&self, _name: RuleName, value: Value, _pieces: u32, _piece: u32) -> Option<Value> {
        Some(value)
    }
}
