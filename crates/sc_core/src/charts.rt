ghost use Rattle.std.specs.Prelude.{◌≡◌, Err, IfOk, Ok};
ghost use Rattle.std.specs.Arc.{arc_value};
ghost use Rattle.sc_types.specs.declared.chart.ChartFault.{ChartFault};
ghost use Rattle.sc_law.specs.LegalCharts.{legal_chart_of};

use crate::body::InstalledChart;
use sc_base::{Bytes, NoMemory, Plain, Word};
use sc_chart_json::read_chart;
use sc_law::Engine;
use sc_types::{ChartImage, ChartRefusal};
use sc_valid::{LegalChart, validate};
use std::alloc::Global;
use std::sync::Arc;

/// The legal chart that a text spells, or the text's first fault.
pub fn read_legal_chart(alloc: Global, text: &[u8]) -> Result<LegalChart, ChartRefusal>
    ensures chart { IfOk result (λ c. legal_chart_of text.now ≡ Ok c) }
    ensures fault { (f : ChartFault) → result ≡ Err (ChartRefusal.Fault f) → legal_chart_of text.now ≡ Err f }
{
    match read_chart(alloc, text) {
        Ok(chart) => validate(alloc, chart),
        Err(refusal) => Err(refusal),
    }
}

/// The legal chart that a text spells, installed under a name, with its plan.
pub(crate) fn installed_chart<E: Engine>(
    alloc: Global,
    e: &E,
    name: &Word,
    text: &Bytes,
    chart: LegalChart,
) -> Result<InstalledChart<E::Plan>, NoMemory>
    ensures image { IfOk result (λ c. c.image ≡ record { name = name.now; text = text.now }) }
    ensures chart { IfOk result (λ c. arc_value c.chart ≡ chart) }
    ensures plan { IfOk result (λ c. E.chart_of (arc_value c.plan) ≡ chart) }
{
    let chart = Arc::new(alloc, chart.into_chart())?;
    let plan = e.plan(alloc, &chart)?;
    Ok(InstalledChart {
        image: ChartImage {
            name: name.copy()?,
            text: text.copy()?,
        },
        chart,
        plan: Arc::new(alloc, plan)?,
    })
}
