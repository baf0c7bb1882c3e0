ghost use Rattle.std.specs.Prelude.{◌≡◌, ◌<◌, None, length};
ghost use Rattle.sc_law.specs.Transitions.{is_match, transition_paths};
ghost use Rattle.sc_turn.specs.Eventless.{has_eventless};

use sc_tables::Tables;
use sc_types::Attribute;

/// Whether a chart has a transition without an event.
pub(crate) fn has_eventless(t: &Tables) -> bool
    ensures { result ≡ has_eventless t.now }
{
    for tr in 0..t.transition_count() {
        if is_eventless(t, tr) {
            return true;
        }
    }
    false
}

fn is_eventless(t: &Tables, tr: u32) -> bool
    requires { tr < length (transition_paths t.now) }
    ensures { result ≡ is_match t.now None tr }
{
    !t.transition(tr).has(Attribute::Event)
}
