ghost use Rattle.std.specs.Prelude.{◌≡◌, None, IfOk, option_and_then};
ghost use Rattle.std.specs.Option.{option_copied};
ghost use Rattle.sc_law.specs.Tree.{id_of, node_of};
ghost use Rattle.std.specs.Arc.{arc_value};
ghost use Rattle.sc_law.specs.Legality.{legal_fault};
ghost use Rattle.sc_law.specs.Runs.{ids};
ghost use Rattle.sc_law.specs.Turn.{round_limit};
ghost use Rattle.sc_turn.specs.Eventless.{has_eventless};
ghost use Rattle.sc_turn.specs.States.{chart_name};
ghost use Rattle.sc_types.specs.Attributes.{profile_of};

use crate::eventless::has_eventless;
use crate::ids::chart_ids;
use crate::limit::round_limit;
use sc_base::{NoMemory, SharedBytes};
use sc_eval::Ids;
use sc_tables::{Tables, build};
use sc_types::{Attribute, Chart, Profile};
use std::alloc::Global;
use std::marker::Model;
use std::sync::Arc;

/// What the turns of a chart need, made once: its tables, the ids that `In` knows, the limit on the rounds of a turn,
/// its name, whether it has transitions without an event, and which values its expressions can make.
#[derive(Drop)]
pub struct Plan {
    tables: Tables,
    state_ids: Arc<Ids>,
    limit: u64,
    name: SharedBytes,
    eventless: bool,
    profile: Profile,
}

impl Model for Plan {
    ghost use Rattle.std.specs.Prelude.{◌≡◌};
    ghost use Rattle.std.specs.Arc.{arc_value};
    ghost use Rattle.sc_types.specs.declared.chart.Chart.{Chart};
    ghost use Rattle.sc_types.specs.contracts.chart.Chart as chart_type;
    ghost use Rattle.std.specs.Coded.{codes};
    ghost use Rattle.sc_law.specs.Runs.{ids};
    ghost use Rattle.sc_law.specs.Turn.{round_limit};
    ghost use Rattle.sc_turn.specs.Eventless.{has_eventless};
    ghost use Rattle.sc_turn.specs.States.{chart_name};
    ghost use Rattle.sc_types.specs.Attributes.{profile_of};

    ghost Value = { Chart };

    ghost coded = { Prim.hlevel (codes, chart_type.the_row.coded) };

    ghost view = { λ p. p.tables };

    ghost invariant = { λ p. (arc_value p.state_ids ≡ ids p.tables) × (p.limit ≡ round_limit p.tables)
        × (p.name ≡ chart_name p.tables) × (p.eventless ≡ has_eventless p.tables)
        × (p.profile ≡ profile_of p.tables) };
}

impl Plan {
    /// The plan of a legal chart.
    pub(crate) fn new(alloc: Global, chart: &Arc<Chart>) -> Result<Plan, NoMemory>
        requires { legal_fault (arc_value chart.now) ≡ None }
        ensures { IfOk result (λ p. p ≡ arc_value chart.now) }
    {
        let limit = round_limit(chart);
        let name = chart_name(alloc, chart)?;
        let tables = build(alloc, chart)?;
        let state_ids = shared_ids(alloc, &tables)?;
        let eventless = has_eventless(&tables);
        Ok(joined(tables, state_ids, limit, name, eventless, chart.profile()))
    }

    pub(crate) fn tables(&self) -> &Tables
        ensures { result.now ≡ self.now }
    {
        &self.tables
    }

    /// The id that the chart gives a state; none where it gives none, and of a number that is no state's.
    pub(crate) fn id_of(&self, state: u32) -> Option<&[u8]>
        ensures { option_copied result ≡ option_and_then id_of (node_of self.now state) }
    {
        let _chart = self.tables.chart();
        if state < self.tables.count() {
            self.tables.element(state).text(Attribute::Id)
        } else {
            // To the definitions any other number is the root's, which has no id.
            self.tables.element(self.tables.count()).text(Attribute::Id)
        }
    }

    pub(crate) fn ids(&self) -> &Arc<Ids>
        ensures { arc_value result.now ≡ ids self.now }
    {
        &self.state_ids
    }

    /// How many rounds a turn may have.
    pub(crate) fn limit(&self) -> u64
        ensures { result ≡ round_limit self.now }
    {
        self.limit
    }

    /// The chart's name, which is empty where it has none.
    pub(crate) fn name(&self) -> &SharedBytes
        ensures { result.now ≡ chart_name self.now }
    {
        &self.name
    }

    /// Whether the chart has a transition without an event.
    pub(crate) fn has_eventless(&self) -> bool
        ensures { result ≡ has_eventless self.now }
    {
        self.eventless
    }

    /// Which values the chart's expressions can make.
    pub(crate) fn profile(&self) -> Profile
        ensures { result ≡ profile_of self.now }
    {
        self.profile
    }
}

fn chart_name(alloc: Global, chart: &Chart) -> Result<SharedBytes, NoMemory>
    ensures { IfOk result (λ name. name ≡ chart_name chart.now) }
{
    match chart.root.text(Attribute::Name) {
        Some(name) => SharedBytes::from_slice(alloc, name),
        None => Ok(SharedBytes::empty()),
    }
}

/// The ids of the chart, for all its runs.
fn shared_ids(alloc: Global, t: &Tables) -> Result<Arc<Ids>, NoMemory>
    ensures { IfOk result (λ rows. arc_value rows ≡ ids t.now) }
{
    let rows = chart_ids(alloc, t)?;
    Ok(Arc::new(alloc, rows)?)
}

fn joined(
    tables: Tables,
    state_ids: Arc<Ids>,
    limit: u64,
    name: SharedBytes,
    eventless: bool,
    profile: Profile,
) -> Plan
    requires ids { arc_value state_ids ≡ ids tables }
    requires limit { limit ≡ round_limit tables }
    requires name { name ≡ chart_name tables }
    requires eventless { eventless ≡ has_eventless tables }
    requires profile { profile ≡ profile_of tables }
    ensures { result ≡ tables }
{
    Plan {
        tables,
        state_ids,
        limit,
        name,
        eventless,
        profile,
    }
}
