ghost use Rattle.std.specs.Prelude.{◌≡◌, None};
ghost use Rattle.sc_law.specs.Legality.{legal_fault};

use sc_types::Chart;
use std::marker::Model;

/// A chart that is legal: `validate` found no fault in it.
#[derive(Drop)]
pub struct LegalChart {
    chart: Chart,
}

impl Model for LegalChart {
    ghost use Rattle.std.specs.Prelude.{◌≡◌, None};
    ghost use Rattle.sc_types.specs.declared.chart.Chart.{Chart};
    ghost use Rattle.sc_law.specs.Legality.{legal_fault};
    ghost use Rattle.sc_types.specs.contracts.chart.Chart as chart_type;
    ghost use Rattle.std.specs.Coded.{codes};

    ghost Value = { Chart };

    ghost coded = { Prim.hlevel (codes, chart_type.the_row.coded) };

    ghost view = { λ l. l.chart };

    ghost invariant = { λ l. legal_fault l.chart ≡ None };
}

impl LegalChart {
    pub(crate) fn new(chart: Chart) -> LegalChart
        requires { legal_fault chart ≡ None }
        ensures { result ≡ chart }
    {
        LegalChart { chart }
    }

    /// The chart, for a reader.
    pub fn chart(&self) -> &Chart
        ensures value { result.now ≡ self.now }
        ensures legal { legal_fault self.now ≡ None }
    {
        &self.chart
    }

    /// The chart, for a new owner.
    pub fn into_chart(self) -> Chart
        ensures value { result ≡ self }
        ensures legal { legal_fault self ≡ None }
    {
        self.chart
    }
}
