ghost use Rattle.std.specs.Prelude.{◌↔◌, ◌≡◌, ◌<◌, ◌^◌, length, IsTrue};
ghost use Rattle.std.specs.List.{list_all};
ghost use Rattle.sc_codec.specs.Bodies.{IsShort, HasFittingPairs, IsEncodable};
ghost use Rattle.sc_types.specs.Values.{fits_flat};

use sc_base::{PlainName, Word};
use sc_types::{Command, Value};

/// Whether a command has a body: each name, the chart's text and the count of the pairs have room in their fields, and
/// each value is within the limits of values.
pub fn is_encodable(command: &Command) -> bool
    ensures { IsTrue result ↔ IsEncodable command.now }
{
    match command {
        Command::Install { name, chart } => is_short(name) && chart.len() <= u32::MAX as usize,
        Command::Start { session, chart } => is_short(session) && is_short(chart),
        Command::Post {
            session,
            event,
            pairs,
        } => { is_short(session) && is_short(event) && has_fitting_pairs(pairs.slice()) }
        Command::Tick { .. } => true,
        Command::Cancel { session } | Command::Step { session } => is_short(session),
    }
}

fn is_short(name: &Word) -> bool
    ensures { IsTrue result ↔ IsShort name.now }
{
    name.bytes().len() <= u16::MAX as usize
}

fn has_fitting_pairs(pairs: &[(PlainName, Value)]) -> bool
    ensures { IsTrue result ↔ HasFittingPairs pairs.now }
{
    pairs.len() <= u16::MAX as usize && have_fitting_values(pairs)
}

fn have_fitting_values(pairs: &[(PlainName, Value)]) -> bool
    ensures { result ≡ list_all (λ p. fits_flat p.1) pairs.now }
{
    pairs.iter().all(|p| p.1.fits_flat())
}
