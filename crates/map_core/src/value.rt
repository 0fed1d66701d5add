//! The lines that set rules and values.
ghost use Rattle.std.specs.Prelude.{◌≡◌, ◌≤◌, IsSome, OnOk, OnErr};
ghost use Rattle.map_defs.specs.Rows.{IsLive};
ghost use Rattle.map_defs.specs.RuleNames.{KnowsRule};
ghost use Rattle.machine_defs.specs.State.{Content, steps_to, rule_at};
ghost use Rattle.machine_defs.specs.Valuing.{IsValued};
ghost use Rattle.machine_defs.specs.Machine.{with_rule};
ghost use Rattle.machine_defs.specs.Script.{Rule as SetRule, Set, Clear, Value as AskValue};
ghost use Rattle.machine_defs.specs.Text.{CellValue};
ghost use Rattle.map_core.specs.Calls.{Does, AnswersAtOnce};

use crate::map::Map;
use crate::note::{begin, finish};
use attr_rules::{Hook, TableRule, merge_beside, split_beside};
use map_kind::{Dart, Done, Kind, Refusal, Refused, Value};
use std::alloc::{AllocError, Global};

impl<'h, K: Kind, H: Hook, const DIM: usize> Map<'h, K, H, DIM> {
    /// Gives a dimension a rule, by the names of its merge and its split, in place of the one that it had. The values
    /// stay.
    ///
    /// Refused as `BadDim` exactly where the dimension is above the map's, and then as `NoRule` exactly where one of the
    /// names is not in its table, and the hook does not know it either.
    pub fn rule(
        &mut self,
        alloc: Global,
        dim: u64,
        merge: &str,
        split: &str,
    ) -> Result<Done, Refused>
        requires { H.ready self.old.hook }
        ensures hook { self.new.hook ≡ self.old.hook }
        ensures does { Does (H.hook self.old.hook) self.old.state (SetRule dim merge.now split.now) result self.new.state }
    {
        let dim = self.dimension(dim)?;
        let Some(merge) = merge_beside(self.hook, merge) else {
            return Err(Refused::Line(Refusal::NoRule));
        };
        let Some(split) = split_beside(self.hook, split) else {
            return Err(Refused::Line(Refusal::NoRule));
        };
        self.set_rule(alloc, dim, TableRule { merge, split })?;
        Ok(Done::NONE)
    }

    /// Gives the cell of a dart in a dimension a value, in place of the one that it had. Where the cell has a value and
    /// no mark stands, it takes no memory; else it costs the size of the cell times a logarithm.
    ///
    /// Refused as `BadDim` exactly where the dimension is above the map's, then as `NoDart` exactly where no live dart
    /// has the number, and then as `NoRule` exactly where the dimension has no rule.
    pub fn set(&mut self, alloc: Global, dim: u64, dart: u64, value: Value) -> Result<Done, Refused>
        ensures hook { self.new.hook ≡ self.old.hook }
        ensures does { Does (H.hook self.old.hook) self.old.state (Set dim dart value) result self.new.state }
    {
        let dim = self.dimension(dim)?;
        let dart = self.live_dart(dart)?;
        if self.present.rule(dim).is_none() {
            return Err(Refused::Line(Refusal::NoRule));
        }
        self.set_value(alloc, dim, dart, Some(value))?;
        Ok(Done::NONE)
    }

    /// Takes the value of the cell of a dart in a dimension away; where it has none, nothing changes. Where it has one,
    /// or a mark stands, it costs the size of the cell times a logarithm.
    ///
    /// Refused as `BadDim` exactly where the dimension is above the map's, then as `NoDart` exactly where no live dart
    /// has the number, and then as `NoRule` exactly where the dimension has no rule.
    pub fn clear(&mut self, alloc: Global, dim: u64, dart: u64) -> Result<Done, Refused>
        ensures hook { self.new.hook ≡ self.old.hook }
        ensures does { Does (H.hook self.old.hook) self.old.state (Clear dim dart) result self.new.state }
    {
        let dim = self.dimension(dim)?;
        let dart = self.live_dart(dart)?;
        if self.present.rule(dim).is_none() {
            return Err(Refused::Line(Refusal::NoRule));
        }
        self.set_value(alloc, dim, dart, None)?;
        Ok(Done::NONE)
    }

    /// The value of the cell of a dart in a dimension, if it has one. It takes no memory.
    ///
    /// Refused as `BadDim` exactly where the dimension is above the map's, and then as `NoDart` exactly where no live
    /// dart has the number.
    pub fn value(&self, dim: u64, dart: u64) -> Result<Option<Value>, Refusal>
        ensures { AnswersAtOnce (H.hook self.now.hook) self.now.state (AskValue dim dart) CellValue result }
    {
        let dim = self.dimension(dim)?;
        let dart = self.live_dart(dart)?;
        Ok(self.present.value(dim, dart))
    }

    /// Gives a dimension a rule that the hook knows. All memory is taken before anything changes.
    fn set_rule(&mut self, alloc: Global, dim: usize, rule: TableRule) -> Result<(), AllocError>
        requires dim { dim ≤ DIM }
        requires known { KnowsRule (H.hook self.old.hook) rule }
        ensures hook { self.new.hook ≡ self.old.hook }
        ensures set { OnOk result (self.new.state ≡ steps_to self.old.state (with_rule self.old.state.present dim rule)) }
        ensures err { OnErr result (self.new ≡ self.old) }
    {
        let noting = begin(&mut self.journal)?;
        let step = self.present.set_rule(alloc, dim, rule, noting)?;
        finish(&mut self.journal, step);
        Ok(())
    }

    /// Gives the cell of a live dart a value, or takes its value away.
    fn set_value(
        &mut self,
        alloc: Global,
        dim: usize,
        dart: Dart,
        value: Option<Value>,
    ) -> Result<(), AllocError>
        requires dim { dim ≤ DIM }
        requires live { IsLive self.old.state.present.rows dart }
        requires ruled { IsSome (rule_at self.old.state.present dim) }
        ensures hook { self.new.hook ≡ self.old.hook }
        ensures set { OnOk result ((next : Content) × IsValued self.old.state.present dim dart value next
            × (self.new.state ≡ steps_to self.old.state next)) }
        ensures err { OnErr result (self.new ≡ self.old) }
    {
        let noting = begin(&mut self.journal)?;
        let step = self.present.set_value(alloc, dim, dart, value, noting)?;
        finish(&mut self.journal, step);
        Ok(())
    }
}
