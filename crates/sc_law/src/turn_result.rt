ghost use Rattle.std.specs.Prelude.{◌≡◌};

use sc_types::{Boxed, Effect, LogLine, Sequence, SessionState};
use std::marker::Model;

/// What a turn gives: the session after it, what the host is to do, in this order, and the log lines.
#[derive(Drop)]
pub struct TurnResult {
    after: Boxed<SessionState>,
    effects: Sequence<Effect>,
    logs: Sequence<LogLine>,
}

impl Model for TurnResult {
    ghost use Rattle.std.specs.Coded.{codes};
    ghost use Rattle.sc_types.specs.contracts.effect.Effect as effect_type;
    ghost use Rattle.sc_types.specs.contracts.history.LogLine as line_type;
    ghost use Rattle.sc_types.specs.contracts.session.SessionState as state_type;
    ghost use Rattle.sc_law.specs.Turn.{TurnResult};

    ghost Value = { TurnResult };

    ghost coded = { Prim.hlevel (
      codes,
      state_type.the_row.coded,
      effect_type.the_row.coded,
      line_type.the_row.coded,
    ) };

    ghost view = { λ r. record { after = r.after; effects = r.effects; logs = r.logs } };
}

impl TurnResult {
    pub fn new(
        after: Boxed<SessionState>,
        effects: Sequence<Effect>,
        logs: Sequence<LogLine>,
    ) -> TurnResult
        ensures { result ≡ record { after = after; effects = effects; logs = logs } }
    {
        TurnResult {
            after,
            effects,
            logs,
        }
    }

    /// The session after the turn.
    pub fn after(&self) -> &SessionState
        ensures { result.now ≡ self.now.after }
    {
        self.after.get()
    }

    /// The session after the turn, the effects and the log lines. Nothing is copied.
    pub fn into_parts(self) -> (Boxed<SessionState>, Sequence<Effect>, Sequence<LogLine>)
        ensures { result ≡ (self.after, self.effects, self.logs) }
    {
        (self.after, self.effects, self.logs)
    }
}
