ghost use Rattle.std.specs.Prelude.{◌≡◌, ◌↔◌, IsTrue};

use crate::sameness::Same;
use sc_types::{Cue, Data, Event, How, Invoked, Phase, SessionState, Value};

#[cycle(same_value)]
fn same_value(a: &Value, b: &Value) -> bool
    ensures { IsTrue result ↔ (a.now ≡ b.now) }
{
    match (a, b) {
        (Value::Bool(x), Value::Bool(y)) => x == y,
        (Value::Int(x), Value::Int(y)) => x == y,
        (Value::Text(x), Value::Text(y)) => x == y,
        (Value::List(x), Value::List(y)) => same_values(x.slice(), y.slice()),
        _ => false,
    }
}

#[cycle(same_value)]
fn same_values(a: &[Value], b: &[Value]) -> bool
    ensures { IsTrue result ↔ (a.now ≡ b.now) }
{
    if a.len() != b.len() {
        return false;
    }
    for i in 0..a.len() {
        if !same_value(&a[i], &b[i]) {
            return false;
        }
    }
    true
}

impl Same for Value {
    fn same(&self, other: &Self) -> bool {
        same_value(self, other)
    }
}

impl Same for Data {
    fn same(&self, other: &Self) -> bool {
        match (self, other) {
            (Data::Absent, Data::Absent) => true,
            (Data::One(x), Data::One(y)) => x.same(y),
            (Data::Pairs(x), Data::Pairs(y)) => x.same(y),
            _ => false,
        }
    }
}

impl Same for Event {
    fn same(&self, other: &Self) -> bool {
        self.number == other.number
            && self.name == other.name
            && self.kind == other.kind
            && self.sendid == other.sendid
            && self.origin == other.origin
            && self.origintype == other.origintype
            && self.invokeid == other.invokeid
            && self.payload.same(&other.payload)
    }
}

impl Same for Invoked {
    fn same(&self, other: &Self) -> bool {
        self.state == other.state
            && self.place == other.place
            && self.invokeid == other.invokeid
            && self.child == other.child
    }
}

impl Same for How {
    fn same(&self, other: &Self) -> bool {
        match (self, other) {
            (How::Final(x), How::Final(y)) => x.same(y),
            (How::Cancelled, How::Cancelled) => true,
            (How::Runaway, How::Runaway) => true,
            _ => false,
        }
    }
}

impl Same for Phase {
    fn same(&self, other: &Self) -> bool {
        match (self, other) {
            (Phase::Fresh, Phase::Fresh) => true,
            (Phase::Running, Phase::Running) => true,
            (Phase::Ended(x), Phase::Ended(y)) => x.same(y),
            _ => false,
        }
    }
}

impl Same for Cue {
    fn same(&self, other: &Self) -> bool {
        match (self, other) {
            (Cue::Fresh, Cue::Fresh) => true,
            (Cue::Resume, Cue::Resume) => true,
            (Cue::Cancel, Cue::Cancel) => true,
            (Cue::External(x), Cue::External(y)) => x.same(y),
            _ => false,
        }
    }
}

fn same_names(a: &SessionState, b: &SessionState) -> bool
    ensures { IsTrue result ↔ ((a.now.session ≡ b.now.session)
        × ((a.now.chart ≡ b.now.chart)
        × ((a.now.phase ≡ b.now.phase)
        × ((a.now.sends ≡ b.now.sends) × (a.now.born ≡ b.now.born))))) }
{
    a.session == b.session
        && a.chart == b.chart
        && a.phase.same(&b.phase)
        && a.sends == b.sends
        && a.born == b.born
}

fn same_sets(a: &SessionState, b: &SessionState) -> bool
    ensures { IsTrue result ↔ ((a.now.configuration ≡ b.now.configuration)
        × ((a.now.values ≡ b.now.values)
        × ((a.now.entered ≡ b.now.entered) × (a.now.histories ≡ b.now.histories)))) }
{
    a.configuration.same(&b.configuration)
        && a.values.same(&b.values)
        && a.entered.same(&b.entered)
        && a.histories.same(&b.histories)
}

fn same_events(a: &SessionState, b: &SessionState) -> bool
    ensures { IsTrue result ↔ ((a.now.internal ≡ b.now.internal)
        × ((a.now.invokes ≡ b.now.invokes)
        × ((a.now.bound ≡ b.now.bound) × (a.now.params ≡ b.now.params)))) }
{
    a.internal.same(&b.internal)
        && a.invokes.same(&b.invokes)
        && a.bound.same(&b.bound)
        && a.params.same(&b.params)
}

/// In three parts, as a state is copied.
impl Same for SessionState {
    fn same(&self, other: &Self) -> bool {
        same_names(self, other) && same_sets(self, other) && same_events(self, other)
    }
}
