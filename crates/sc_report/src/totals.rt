ghost use Rattle.std.specs.Prelude.{◌≡◌, ◌<◌, Some, length, slice_get};
ghost use Rattle.sc_types.specs.declared.host.SessionImage.{SessionImage};
ghost use Rattle.sc_report.specs.Summary.{counted, counted_live, counted_of, integer_of, is_drawn, total};

use sc_base::PlainName;
use sc_core::HostState;
use sc_law::Engine;
use sc_types::{Phase, SessionState, Value};

/// What the sessions of a drawn script have counted. A session counts less than 2^63, and there are less than 2^64.
pub(crate) fn total<E: Engine>(host: &HostState<E>) -> i128
    ensures { result ≡ total host.now.image.sessions }
{
    let mut total = 0;
    for place in 0..host.count() {
        total += i128::from(counted_of(host, place));
    }
    total
}

fn counted_of<E: Engine>(host: &HostState<E>, place: usize) -> i64
    requires within { place < length host.now.image.sessions }
    ensures { (s : SessionImage) → slice_get host.now.image.sessions place ≡ Some s → result ≡ counted_of s }
{
    let state = host.state(place);
    if is_drawn(state.session.bytes()) {
        counted_live(state)
    } else {
        0
    }
}

fn is_drawn(name: &[u8]) -> bool
    ensures { result ≡ is_drawn name.now }
{
    matches!(
        name,
        b"g0" | b"g1" | b"g2" | b"g3" | b"g4" | b"g5" | b"g6" | b"g7"
    )
}

fn counted_live(state: &SessionState) -> i64
    ensures { result ≡ counted_live state.now.phase state.now.values }
{
    match &state.phase {
        Phase::Ended(_) => 0,
        Phase::Fresh => counted(state.values.slice()),
        Phase::Running => counted(state.values.slice()),
    }
}

fn counted(values: &[(PlainName, Option<Value>)]) -> i64
    ensures { result ≡ counted values.now }
{
    for datum in values {
        if datum.0.bytes() == b"n".as_slice() {
            return integer_of(&datum.1);
        }
    }
    0
}

fn integer_of(value: &Option<Value>) -> i64
    ensures { result ≡ integer_of value.now }
{
    match value {
        Some(Value::Int(number)) => *number,
        _ => 0,
    }
}
