use crate::element::element_at;
use crate::fault::told;
use crate::json_hint::json_hint;
use crate::json_text::from_element;
use crate::one_line::on_one_line;
use crate::place::Place;
use json::{Scratch, Value};
use sc_base::NoMemory;
use sc_chart_json::read_chart;
use sc_types::faults::{NOT_JSON, TOO_LARGE};
use sc_types::{CHART_TEXT_LIMIT, ChartFault, ChartRefusal};
use sc_valid::validate;
use std::alloc::Global;

const TOO_LARGE_TOLD: &str =
    "the chart has more than 1,048,576 bytes: let a state invoke a chart of its own";

/// A text, and where it begins.
#[derive(Clone, Copy)]
pub(crate) struct Placed<'t> {
    pub(crate) text: &'t str,
    pub(crate) start: Place,
}

impl Placed<'_> {
    pub(crate) fn place(self, offset: usize) -> Place {
        self.start.of(self.text.as_bytes(), offset)
    }
}

/// What is wrong with a text that is no legal chart, and where; `None` where it is one.
pub fn chart_hint(alloc: Global, text: &[u8]) -> Result<Option<String>, NoMemory> {
    match std::str::from_utf8(text) {
        Ok(text) => {
            let start = Place::START;
            placed_chart_hint(alloc, Placed { text, start })
        }
        Err(_) if text.len() > CHART_TEXT_LIMIT => Ok(Some(String::from_str(
            alloc,
            TOO_LARGE_TOLD,
        )?)),
        Err(error) => {
            let place = Place::START.of(text, error.valid_up_to());
            Ok(Some(format!(in alloc; "{place}: here the text is not UTF-8: save it as UTF-8")?))
        }
    }
}

/// The same of a text that begins anywhere.
pub(crate) fn placed_chart_hint(
    alloc: Global,
    chart: Placed<'_>,
) -> Result<Option<String>, NoMemory> {
    match fault_of(alloc, chart.text.as_bytes())? {
        Some(fault) => {
            let sentence = fault_hint(alloc, chart, &fault)?;
            Ok(Some(on_one_line(alloc, sentence.as_str())?))
        }
        None => Ok(None),
    }
}

/// The first fault of a text.
fn fault_of(alloc: Global, text: &[u8]) -> Result<Option<ChartFault>, NoMemory> {
    match read_chart(alloc, text) {
        Ok(chart) => match validate(alloc, chart) {
            Ok(_) => Ok(None),
            Err(refusal) => fault_in(refusal),
        },
        Err(refusal) => fault_in(refusal),
    }
}

fn fault_in(refusal: ChartRefusal) -> Result<Option<ChartFault>, NoMemory> {
    match refusal {
        ChartRefusal::Fault(fault) => Ok(Some(fault)),
        ChartRefusal::NoMemory => Err(NoMemory),
    }
}

fn fault_hint(alloc: Global, chart: Placed<'_>, fault: &ChartFault) -> Result<String, NoMemory> {
    match fault.number {
        TOO_LARGE => Ok(String::from_str(alloc, TOO_LARGE_TOLD)?),
        NOT_JSON => json_hint(alloc, chart),
        _ => element_hint(alloc, chart, fault),
    }
}

/// What is wrong with an element, behind its place and its name.
fn element_hint(alloc: Global, chart: Placed<'_>, fault: &ChartFault) -> Result<String, NoMemory> {
    let mut scratch = Scratch::new(alloc);
    match Value::parse(alloc, chart.text, &mut scratch) {
        Ok(root) => told_of(alloc, chart, fault, &root),
        Err(_) => Err(NoMemory),
    }
}

fn told_of(
    alloc: Global,
    chart: Placed<'_>,
    fault: &ChartFault,
    root: &Value<'_>,
) -> Result<String, NoMemory> {
    let path = fault.path.slice();
    match (
        element_at(root, path),
        from_element(alloc, chart.text, path)?,
    ) {
        (Some(element), Some(rest)) => {
            let place = chart.place(chart.text.len().saturating_sub(rest.len()));
            let name = element.name(alloc)?;
            let sentence = told(alloc, fault, root, &element, rest)?;
            Ok(format!(in alloc; "{place}: {name}: {sentence}")?)
        }
        _ => Ok(String::from_str(alloc, "the chart has a fault")?),
    }
}
