ghost use Rattle.std.specs.Prelude.{◌≡◌, ◌+◌, ◌^◌, ◌++◌, nat_lt, Some, None, Ok, Err, IfOk, OnOk, if◌then◌else◌, decimal, codes};
ghost use Rattle.sc_types.specs.ChartTexts.{states_in, count_states};
ghost use Rattle.sc_types.specs.Elements.{is_numbered};
ghost use Rattle.sc_law.specs.LegalCharts.{legal_chart_of};
ghost use Rattle.sc_report.specs.Lines.{line};
ghost use Rattle.sc_top.specs.Sayings.{status_of, text_of, check_status, check_text};

use crate::lines::counted_line;
use crate::saying::Saying;
use sc_base::{Bytes, NoMemory};
use sc_core::read_legal_chart;
use sc_types::{Chart, ChartRefusal, Node, Tag};
use std::alloc::Global;

/// What is said of a text that should spell a chart: how many states it has, or its first fault.
pub(crate) fn check_text(alloc: Global, text: &[u8]) -> Result<Saying, NoMemory>
    ensures status { IfOk result (λ s. status_of s ≡ check_status (legal_chart_of text.now)) }
    ensures text { IfOk result (λ s. text_of s ≡ check_text (legal_chart_of text.now)) }
{
    match read_legal_chart(alloc, text) {
        Ok(chart) => Ok(Saying::Legal(chart_line(alloc, chart.chart())?)),
        Err(ChartRefusal::Fault(fault)) => Ok(Saying::Faulty(fault)),
        Err(ChartRefusal::NoMemory) => Err(NoMemory),
    }
}

fn chart_line(alloc: Global, chart: &Chart) -> Result<Bytes, NoMemory>
    ensures { IfOk result (λ text. text ≡ line (codes "ok " ++ decimal (count_states chart.now))) }
{
    counted_line(alloc, b"ok ", states_in(&chart.root)?)
}

/// How many states an element and those below it are, with parallels, finals and histories. A chart with 2^64
/// states is larger than any memory.
#[cycle(states)]
fn states_in(node: &Node) -> Result<u64, NoMemory>
    ensures { IfOk result (λ n. n ≡ states_in node.now) }
{
    let mut count = states_at(node.tag);
    for kid in node.kids.slice() {
        match sum_of(count, states_in(kid)?) {
            Some(sum) => count = sum,
            None => return Err(NoMemory),
        }
    }
    Ok(count)
}

fn states_at(tag: Tag) -> u64
    ensures { result ≡ (if is_numbered tag then 1 else 0) }
{
    if tag.is_numbered() { 1 } else { 0 }
}

/// The sum of two counts of states, where it has 64 bits.
fn sum_of(a: u64, b: u64) -> Option<u64>
    ensures { result ≡ (if nat_lt (a + b) (2 ^ 64) then Some (a + b) else None) }
{
    a.checked_add(b)
}
