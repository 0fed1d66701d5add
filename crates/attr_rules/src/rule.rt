ghost use Rattle.std.specs.Prelude.{◌≡◌, ◌<◌};
ghost use Rattle.map_defs.specs.Values as values;
ghost use Rattle.map_defs.specs.Values.{Meaning, KeepsWhole, merged_by, share_by, meaning_of, is_among};
ghost use Rattle.map_defs.specs.RuleNames.{IsHook};
ghost use Rattle.value_laws.proofs.Rules.{keeps_whole};

use crate::name::RuleName;
use crate::numbers;
use crate::table::{Merge, Split, TableRule};
use map_kind::Value;

/// How values merge and split. What the two calls answer is the ghost member `meaning`; when they may be called is
/// `ready`, which for a rule without state is always true. A rule that may be called leaves whole the value of a cell that is
/// not split.
pub trait Rule {
    ghost meaning: { Self → Meaning };

    ghost ready: { Self → Type 0 };

    /// The value of two values that become one, `x` before `y`.
    fn merged(&self, x: Value, y: Value) -> Value
        requires { ready self.now }
        ensures { result ≡ (meaning self.now).merged x y };

    /// What piece `piece` of `pieces` gets of the value of its cell, where the pieces count from 0; none where it gets
    /// nothing.
    fn share(&self, value: Value, pieces: u32, piece: u32) -> Option<Value>
        requires ready { ready self.now }
        requires piece { piece < pieces }
        ensures { result ≡ (meaning self.now).share value pieces piece };

    ghost whole: { (rule : Self) → ready rule → KeepsWhole (meaning rule) };
}

/// What a caller hands in beside the tables: a rule, which is the row `host` of both, and further rules that it knows by
/// names. What all of them do is the ghost member `hook`.
///
/// Of a hook that may be called, the names are 1 to 32 small letters, digits and underscores and stand in neither table, and
/// each rule leaves whole the value of a cell that is not split.
pub trait Hook: Rule {
    ghost hook: { Self → values.Hook };

    /// Whether a rule of this name is known.
    fn knows(&self, name: &str) -> bool
        ensures { result ≡ is_among (hook self.now).names name.now };

    /// The value of two values that become one by the rule of this name; the first, if no such rule is known.
    fn merged_by(&self, name: RuleName, x: Value, y: Value) -> Value
        requires { Self.ready self.now }
        ensures { result ≡ merged_by (hook self.now) (values.Named name) x y };

    /// What piece `piece` of `pieces` gets of the value of its cell by the rule of this name; the value, if no such rule is
    /// known.
    fn share_by(&self, name: RuleName, value: Value, pieces: u32, piece: u32) -> Option<Value>
        requires ready { Self.ready self.now }
        requires piece { piece < pieces }
        ensures { result ≡ share_by (hook self.now) (values.Named name) value pieces piece };

    ghost host: { (h : Self) → (hook h).host ≡ Self.meaning h };

    ghost lawful: { (h : Self) → Self.ready h → IsHook (hook h) };
}

/// A rule of the tables or of a hook, beside that hook.
#[derive(Drop)]
pub struct RuleWith<'h, H: Hook> {
    pub rule: TableRule,
    pub hook: &'h H,
}

impl<'h, H: Hook> Rule for RuleWith<'h, H> {
    ghost meaning = { λ r. meaning_of (H.hook r.hook.now) r.rule };

    ghost ready = { λ r. H.ready r.hook.now };

    ghost whole = { λ r ready. keeps_whole (H.hook r.hook.now) r.rule (H.lawful r.hook.now ready).whole };

    fn merged(&self, x: Value, y: Value) -> Value {
        match self.rule.merge {
            Merge::First => x,
            Merge::Last => y,
            Merge::Sum => numbers::sum(x, y),
            Merge::Min => numbers::least(x, y),
            Merge::Max => numbers::greatest(x, y),
            Merge::Mid => numbers::mid(x, y),
            Merge::Host => self.hook.merged(x, y),
            Merge::Named(name) => self.hook.merged_by(name, x, y),
        }
    }

    fn share(&self, value: Value, pieces: u32, piece: u32) -> Option<Value> {
        match self.rule.split {
            Split::Copied => Some(value),
            Split::Keep => { if piece == 0 { Some(value) } else { None } }
            Split::Share => Some(numbers::dealt_value(value, pieces, piece)),
            Split::Host => self.hook.share(value, pieces, piece),
            Split::Named(name) => self.hook.share_by(name, value, pieces, piece),
        }
    }
}
