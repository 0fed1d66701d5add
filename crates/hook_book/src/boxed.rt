//! What a book asks of the rules that it keeps, and boxes of named rules, which answer it.
ghost use Rattle.std.specs.Prelude.{◌≡◌, ◌<◌, ℕ, List};
ghost use Rattle.map_defs.specs.Values.{Meaning, KeepsWhole};

use crate::named::Named;
use attr_rules::Rule;
use map_kind::Value;

/// A rule that a book can keep: it has a name, and merges and shares values.
pub trait Kept {
    ghost called: { Self → List ℕ };

    ghost does: { Self → Meaning };

    ghost may: { Self → Type 0 };

    /// The name of the rule.
    fn name(&self) -> &str
        ensures { result.now ≡ called self.now };

    /// The value of two values that become one by the rule.
    fn merged(&self, x: Value, y: Value) -> Value
        requires { may self.now }
        ensures { result ≡ (does self.now).merged x y };

    /// What piece `piece` of `pieces` gets of the value of its cell by the rule.
    fn share(&self, value: Value, pieces: u32, piece: u32) -> Option<Value>
        requires may { may self.now }
        requires piece { piece < pieces }
        ensures { result ≡ (does self.now).share value pieces piece };
}

impl Kept for Box<dyn Named> {
    ghost called = { λ b. (Named-box b).Named.called b.value };

    ghost does = { λ b. (Named-box b).Rule.meaning b.value };

    ghost may = { λ b. (Named-box b).Rule.ready b.value };

    fn name(&self) -> &str {
        (**self).name()
    }

    fn merged(&self, x: Value, y: Value) -> Value {
        (**self).merged(x, y)
    }

    fn share(&self, value: Value, pieces: u32, piece: u32) -> Option<Value> {
        (**self).share(value, pieces, piece)
    }
}
