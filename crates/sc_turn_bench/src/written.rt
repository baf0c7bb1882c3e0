use crate::turns::session_after;
use sc_base::{NoMemory, TextWriter};
use sc_chart_json::read_chart;
use sc_expr::put_value;
use sc_types::{SessionState, Value};
use sc_valid::{LegalChart, validate};
use std::alloc::Global;

fn put_numbers(out: &mut TextWriter, numbers: &[u32]) -> Result<(), NoMemory> {
    for number in numbers {
        out.text(" ")?;
        out.number(u128::from(*number))?;
    }
    Ok(())
}

fn put_datum(out: &mut TextWriter, name: &[u8], value: &Option<Value>) -> Result<(), NoMemory> {
    out.text(" ")?;
    out.bytes(name)?;
    out.text("=")?;
    match value {
        Some(value) => put_value(out, value),
        None => Ok(()),
    }
}

fn put_session(out: &mut TextWriter, state: &SessionState) -> Result<(), NoMemory> {
    put_numbers(out, state.configuration.slice())?;
    for datum in state.values.slice() {
        put_datum(out, datum.0.bytes(), &datum.1)?;
    }
    Ok(())
}

/// The legal chart that a text spells.
fn legal_chart(alloc: Global, text: &[u8]) -> Option<LegalChart> {
    let chart = read_chart(alloc, text).ok()?;
    validate(alloc, chart).ok()
}

fn put_chart(
    alloc: Global,
    out: &mut TextWriter,
    chart: LegalChart,
    event: &str,
    count: u32,
) -> Result<(), NoMemory> {
    match session_after(alloc, chart, event.as_bytes(), count) {
        Some(state) => put_session(out, state.get()),
        None => out.text(" stopped"),
    }
}

/// What a line asks for; out of memory, a part of it.
pub fn put_line(alloc: Global, out: &mut TextWriter, line: &str) -> Result<(), NoMemory> {
    let (count, rest) = line.split_once(' ').unwrap_or(("", ""));
    let (event, text) = rest.split_once(' ').unwrap_or(("", ""));
    out.text(count)?;
    let turns = count.parse::<u32>().unwrap_or(0);
    match legal_chart(alloc, text.as_bytes()) {
        Some(chart) => put_chart(alloc, out, chart, event, turns)?,
        None => out.text(" no chart")?,
    }
    out.end_line()
}
