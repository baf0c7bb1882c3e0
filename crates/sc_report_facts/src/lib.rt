//! The law that a report tells its history. Nothing stands on this crate; it is there so that a change of the report
//! by which two histories would read alike is refused.
#![tactic(auto)]

ghost use Rattle.std.specs.Prelude.{◌≡◌, ℕ, List};
ghost use Rattle.sc_types.specs.declared.history.Entry.{Entry};
ghost use Rattle.sc_types.specs.declared.host.HostImage.{HostImage};
ghost use Rattle.sc_machine.specs.Histories.{replay};
ghost use Rattle.sc_report.specs.declared.end.End.{End};
ghost use Rattle.sc_report.specs.Report.{report};
ghost use Rattle.sc_report_facts.specs.Histories.{IsHistory};

mod typed;

pub use typed::are_typed;

/// Two different histories from one host have different reports: the bytes of a report tell each entry of its history,
/// and how the run ended. The two counts of commands that were journaled before may differ.
pub fn different_histories_have_different_reports()
    ensures history { (g : HostImage) (opened other : ℕ) (first second : List Entry) (ended stopped : End)
        → IsHistory g first → IsHistory g second
        → report opened (replay g first) first ended ≡ report other (replay g second) second stopped
        → first ≡ second }
    ensures end { (g : HostImage) (opened other : ℕ) (first second : List Entry) (ended stopped : End)
        → IsHistory g first → IsHistory g second
        → report opened (replay g first) first ended ≡ report other (replay g second) second stopped
        → ended ≡ stopped }
{}
