//! There is an answer: each line has a reply and a state to which it leads, and each program a text and a status.
//!
//! Each law is a function with no parameters and an empty body: what it ensures is the law, for both kinds of map and every
//! dimension. A proof uses it by a call. The lemmas behind them are in `proofs/`.
//!
//! The laws are told as `NotNot`: it is not so that there is no answer. That is as good for a reader: sets of darts are
//! finite, so each question that a line asks has an answer, and it is only not told here which. With `one_step` and
//! `one_answer` of `machine_laws`, which say that there is at most one, there is one answer to each line and program.
#![tactic(auto)]

ghost use Rattle.std.specs.Prelude.{ℕ, List};
ghost use Rattle.map_defs.specs.Values.{Hook};
ghost use Rattle.machine_defs.specs.State.{State};
ghost use Rattle.machine_defs.specs.Kept.{IsLawfulState};
ghost use Rattle.machine_defs.specs.Script.{Line};
ghost use Rattle.machine_defs.specs.Outside.{Files};
ghost use Rattle.machine_defs.specs.Program.{Starts};
ghost use Rattle.machine_laws.specs.Tracing.{AreTraced};
ghost use Rattle.answer_laws.specs.Answering.{NotNot, AnswerNeeds, HasStep, HasRun, HasAnswer, HasWhole};

/// In each state that keeps what the states of a run keep, the machine can take a step at each line, whatever the hook does:
/// the line is refused, or it passes its checks and has its effect. A log needs that each content which is kept can follow
/// the one before it, as it does in each state of a run; no other line needs anything.
///
/// For a reader of the machine's tables: they leave no line without a reply. Where a change of links is told there are rows
/// with these links and values for all their cells, and no law of the machine holds only because a step is wanting.
pub fn each_line_has_an_answer()
    ensures { (hook : Hook) (s : State) (line : Line) → IsLawfulState s → AnswerNeeds line s → NotNot (HasStep hook s line) }
{}

/// Each script has a run from each such state. The lines may be any, also such as are outside the grammar.
///
/// For whoever speaks of the replies to a script: there are some.
pub fn each_script_has_a_run()
    ensures { (hook : Hook) (s : State) (lines : List (List ℕ)) → IsLawfulState s → AreTraced s → NotNot (HasRun hook s lines) }
{}

/// The program has a text and a status for all words and files. Nothing is asked of them: words that tell no command, files
/// that are missing or too long, and meshes that are refused have their answers too.
///
/// For whoever speaks of the program's text: there is one.
pub fn each_program_has_an_answer()
    ensures { (hook : Hook) (words : List (List ℕ)) (files : Files) → NotNot (HasAnswer hook words files) }
{}

/// A text with which the program's text starts, as `Starts` says it, goes on to a whole text: the program has a text and a
/// status for its words and files, and the first text is a front of that one.
///
/// For whoever reads an output that ends early, but for the line that a file cannot be read: `one_front` of `machine_laws`
/// takes the text as given, and here there is one.
pub fn what_was_written_goes_on()
    ensures { (hook : Hook) (words : List (List ℕ)) (files : Files) (front : List ℕ) → Starts hook words files front
        → NotNot (HasWhole hook words files front) }
{}
