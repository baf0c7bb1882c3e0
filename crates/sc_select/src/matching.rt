ghost use Rattle.std.specs.Prelude.{◌≡◌, ◌<◌, length};
ghost use Rattle.std.specs.Option.{option_copied};
ghost use Rattle.sc_types.specs.Descriptors.{any_matches};
ghost use Rattle.sc_law.specs.Transitions.{is_match, transition_paths};

use sc_names::piece_matches;
use sc_tables::Tables;
use sc_types::{Attribute, Bytes};

/// Whether a transition matches the event of a name, or matches where no event is there. SCXML 3.12.1.
pub(crate) fn is_match(t: &Tables, event: Option<&[u8]>, tr: u32) -> bool
    requires { tr < length (transition_paths t.now) }
    ensures { result ≡ is_match t.now (option_copied event.entry) tr }
{
    let transition = t.transition(tr);
    match event {
        Some(name) => any_matches(transition.words(Attribute::Event), name),
        None => !transition.has(Attribute::Event),
    }
}

fn any_matches(pieces: &[Bytes], name: &[u8]) -> bool
    ensures { result ≡ any_matches pieces.now name.now }
{
    pieces
        .iter()
        .any(|piece| piece_matches(piece.slice(), name))
}
