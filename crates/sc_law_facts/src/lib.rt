//! Worked examples that the definitions of a turn compute to: whole turns of small charts, and values of expressions.
//! Nothing stands on this crate; it is there so that a change of the definitions that changes one of these turns is
//! refused.
#![tactic(auto)]

ghost use Rattle.std.specs.Prelude.{◌≡◌};
ghost use Rattle.sc_types.specs.declared.chart.Chart.{Chart};
ghost use Rattle.sc_types.specs.declared.session.Cue.{Cue};
ghost use Rattle.sc_types.specs.declared.session.SessionState.{SessionState};
ghost use Rattle.sc_law.specs.Turn.{turn};
ghost use Rattle.sc_law_facts.specs.Content.{contents};
ghost use Rattle.sc_law_facts.specs.EntryAndExit.{entry_and_exit};
ghost use Rattle.sc_law_facts.specs.Expressions.{sums};
ghost use Rattle.sc_law_facts.specs.Histories.{histories};
ghost use Rattle.sc_law_facts.specs.Invocations.{invocations};
ghost use Rattle.sc_law_facts.specs.Limits.{limits};
ghost use Rattle.sc_law_facts.specs.Messages.{messages};
ghost use Rattle.sc_law_facts.specs.Selection.{selection};
ghost use Rattle.sc_law_facts.specs.Stories.{AreRight, AreSo};

/// Which transitions a microstep takes.
pub fn transitions_are_selected()
    ensures { AreSo selection }
{}

/// What is entered and exited, in which order, and what a final state tells.
pub fn states_are_entered_and_exited()
    ensures { AreSo entry_and_exit }
{}

/// What a history stands for.
pub fn histories_are_recalled()
    ensures { AreSo histories }
{}

/// Data and executable content.
pub fn content_is_executed()
    ensures { AreSo contents }
{}

/// What a session sends to others and to itself.
pub fn messages_are_sent()
    ensures { AreSo messages }
{}

/// Sessions that a state invokes.
pub fn sessions_are_invoked()
    ensures { AreSo invocations }
{}

/// The limit on the rounds of a turn.
pub fn rounds_are_limited()
    ensures { AreSo limits }
{}

/// Values of expressions, and their faults.
pub fn expressions_have_values()
    ensures { AreRight sums }
{}

/// A turn leaves a session its name, its chart and what it was started with.
pub fn names_stay()
    ensures session { (c : Chart) (s : SessionState) (cue : Cue) → (turn c s cue).after.session ≡ s.session }
    ensures chart { (c : Chart) (s : SessionState) (cue : Cue) → (turn c s cue).after.chart ≡ s.chart }
    ensures params { (c : Chart) (s : SessionState) (cue : Cue) → (turn c s cue).after.params ≡ s.params }
{}
