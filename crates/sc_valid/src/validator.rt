ghost use Rattle.std.specs.Prelude.{◌≡◌, ◌^◌, [], nat_lt, if◌then◌else◌, Option, Some, None, Ok, Err, IfOk};
ghost use Rattle.sc_types.specs.ChartTexts.{fault};
ghost use Rattle.sc_types.specs.declared.chart.ChartFault.{ChartFault};
ghost use Rattle.sc_law.specs.Legality.{first_fault, legal_fault, number_at};
ghost use Rattle.sc_valid.specs.Numbers.{later_number};

use crate::index::ChartIndex;
use crate::legal::LegalChart;
use sc_base::{Bytes, NoMemory, Sequence};
use sc_law::{Path, element_paths};
use sc_types::faults::{
    BAD_CHILD, BAD_DATA, BAD_HISTORY, BAD_INITIAL, BAD_INVOKE, BAD_LIMIT, BAD_SEND, BAD_TARGETS,
    DOUBLE_ID, EMPTY_FINALIZE, EMPTY_TRANSITION, UNKNOWN_TARGET,
};
use sc_types::{Chart, ChartFault, ChartRefusal};
use std::alloc::Global;

/// Takes a chart that is legal. Answers `Fault` with the first fault of one that is not, and `NoMemory` out
/// of memory; either way the chart is given up.
pub fn validate(alloc: Global, chart: Chart) -> Result<LegalChart, ChartRefusal>
    ensures legal { IfOk result (λ l. (l ≡ chart) × (legal_fault chart ≡ None)) }
    ensures fault { (f : ChartFault) → result ≡ Err (ChartRefusal.Fault f) → legal_fault chart ≡ Some f }
{
    match fault_of(alloc, &chart)? {
        Some(fault) => Err(ChartRefusal::Fault(fault)),
        None => Ok(LegalChart::new(chart)),
    }
}

#[tactic(auto, unfolding(sc_law::specs::Legality::legal_fault))]
fn fault_of(alloc: Global, chart: &Chart) -> Result<Option<ChartFault>, NoMemory>
    ensures { IfOk result (λ o. o ≡ legal_fault chart.now) }
{
    let paths = element_paths(alloc, chart)?;
    let index = ChartIndex::new(alloc, chart, paths.slice())?;
    index.first_fault(alloc, paths.slice())
}

impl<'c> ChartIndex<'c> {
    fn first_fault(&self, alloc: Global, paths: &[Path]) -> Result<Option<ChartFault>, NoMemory>
        ensures { IfOk result (λ o. o ≡ first_fault self.now paths.now) }
    {
        for path in paths {
            if let Some(number) = self.number_at(alloc, path.slice())? {
                return Ok(Some(fault(alloc, number, path.slice())?));
            }
        }
        Ok(None)
    }

    /// The smallest number of a fault at an element.
    fn number_at(&self, alloc: Global, path: &[usize]) -> Result<Option<u8>, NoMemory>
        ensures { IfOk result (λ n. n ≡ number_at self.now path.now) }
    {
        if self.is_double_id(path) {
            return Ok(Some(DOUBLE_ID));
        }
        if self.has_unknown_target(path) {
            return Ok(Some(UNKNOWN_TARGET));
        }
        if self.is_bad_initial(alloc, path)? {
            return Ok(Some(BAD_INITIAL));
        }
        if self.is_bad_history(alloc, path)? {
            return Ok(Some(BAD_HISTORY));
        }
        if self.has_bad_targets(alloc, path)? {
            return Ok(Some(BAD_TARGETS));
        }
        Ok(self.later_number(path))
    }

    fn later_number(&self, path: &[usize]) -> Option<u8>
        ensures { result ≡ later_number self.now path.now }
    {
        if self.is_empty_transition(path) {
            Some(EMPTY_TRANSITION)
        } else if self.is_bad_child(path) {
            Some(BAD_CHILD)
        } else if self.is_bad_limit(path) {
            Some(BAD_LIMIT)
        } else if self.is_bad_send(path) {
            Some(BAD_SEND)
        } else if self.is_bad_invoke(path) {
            Some(BAD_INVOKE)
        } else if self.is_bad_data(path) {
            Some(BAD_DATA)
        } else if self.is_empty_finalize(path) {
            Some(EMPTY_FINALIZE)
        } else {
            None
        }
    }
}

fn fault(alloc: Global, number: u8, path: &[usize]) -> Result<ChartFault, NoMemory>
    ensures { IfOk result (λ f. f ≡ fault number path.now []) }
{
    Ok(ChartFault {
        number,
        path: short_path(alloc, path)?,
        member: Bytes::new(alloc),
    })
}

/// The path with 32 bits for each place. An element with more child elements is larger than any memory.
fn short_path(alloc: Global, path: &[usize]) -> Result<Sequence<u32>, NoMemory>
    ensures { IfOk result (λ p. p ≡ path.now) }
{
    let mut short = Sequence::new(alloc);
    for place in path {
        match short_place(*place) {
            Some(place) => short.push(place)?,
            None => return Err(NoMemory),
        }
    }
    Ok(short)
}

fn short_place(place: usize) -> Option<u32>
    ensures { result ≡ (if nat_lt place (2 ^ 32) then Some place else None) }
{
    u32::try_from(place).ok()
}
