ghost use Rattle.std.specs.Prelude.{◌≡◌, ◌<◌};
ghost use Rattle.sc_law.specs.Tree.{state_count};
ghost use Rattle.sc_law.specs.Kinds.{is_atomic, is_compound, is_deep, is_final, is_history, is_parallel};

use crate::tables::Tables;
use sc_types::StateKind;

// What a state or a history is, as questions.
impl Tables {
    /// Whether a state has no child states; a final has none.
    pub fn is_atomic(&self, s: u32) -> bool
        requires { s < state_count self.now }
        ensures { result ≡ is_atomic self.now s }
    {
        matches!(self.kind(s), StateKind::Atomic | StateKind::Final)
    }

    pub fn is_compound(&self, s: u32) -> bool
        requires { s < state_count self.now }
        ensures { result ≡ is_compound self.now s }
    {
        matches!(self.kind(s), StateKind::Compound)
    }

    pub fn is_parallel(&self, s: u32) -> bool
        requires { s < state_count self.now }
        ensures { result ≡ is_parallel self.now s }
    {
        matches!(self.kind(s), StateKind::Parallel)
    }

    pub fn is_final(&self, s: u32) -> bool
        requires { s < state_count self.now }
        ensures { result ≡ is_final self.now s }
    {
        matches!(self.kind(s), StateKind::Final)
    }

    pub fn is_history(&self, s: u32) -> bool
        requires { s < state_count self.now }
        ensures { result ≡ is_history self.now s }
    {
        matches!(self.kind(s), StateKind::Shallow | StateKind::Deep)
    }

    pub fn is_deep(&self, s: u32) -> bool
        requires { s < state_count self.now }
        ensures { result ≡ is_deep self.now s }
    {
        matches!(self.kind(s), StateKind::Deep)
    }
}
