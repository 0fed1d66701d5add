ghost use Rattle.std.specs.Prelude.{◌≡◌, ℕ, List, Some, codes, refl};
ghost use Rattle.hook_book.specs.Rules.{exclusive_or, spanned, spanned-whole};

use attr_rules::{Rule, dealt};
use map_kind::Value;

/// A rule with a name.
pub trait Named: Rule + Drop {
    ghost called: { Self → List ℕ };

    /// The name of the rule.
    fn name(&self) -> &str
        ensures { result.now ≡ called self.now };
}

/// The rule `xor`: it merges by the bitwise exclusive or of each number, and splits by copying.
#[derive(Clone, Copy, Debug, PartialEq, Eq)]
pub struct Xor;

impl Rule for Xor {
    ghost meaning = { λ _. exclusive_or };

    ghost ready = { λ _. Unit };

    ghost whole = { λ _ _ v _. refl };

    fn merged(&self, x: Value, y: Value) -> Value {
        Value {
            a: x.a ^ y.a,
            b: x.b ^ y.b,
            c: x.c ^ y.c,
        }
    }

    fn share(&self, value: Value, _pieces: u32, _piece: u32) -> Option<Value> {
        Some(value)
    }
}

impl Named for Xor {
    ghost called = { λ _. codes "xor" };

    fn name(&self) -> &str {
        "xor"
    }
}

/// The rule `span`: the first number is the least and the second the greatest of what is merged, and each piece gets them
/// whole; the third is summed, held within `i64`, and dealt out.
#[derive(Clone, Copy, Debug, PartialEq, Eq)]
pub struct Span;

impl Rule for Span {
    ghost meaning = { λ _. spanned };

    ghost ready = { λ _. Unit };

    ghost whole = { λ _ _. spanned-whole };

    fn merged(&self, x: Value, y: Value) -> Value {
        Value {
            a: x.a.min(y.a),
            b: x.b.max(y.b),
            c: x.c.saturating_add(y.c),
        }
    }

    fn share(&self, value: Value, pieces: u32, piece: u32) -> Option<Value> {
        Some(Value {
            c: dealt(value.c, pieces, piece),
            ..value
        })
    }
}

impl Named for Span {
    ghost called = { λ _. codes "span" };

    fn name(&self) -> &str {
        "span"
    }
}
