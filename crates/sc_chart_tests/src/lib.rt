//! Tests of charts: texts with the trees that they spell or their first faults, the limits of charts, which charts are
//! legal, and what is printed of a chart.
#![tactic(auto)]

#[cfg(test)]
mod chart_limits;
#[cfg(test)]
mod charts;
#[cfg(test)]
mod legality;
#[cfg(test)]
mod legality_of_content;
#[cfg(test)]
mod legality_of_states;
#[cfg(test)]
mod recipes;
