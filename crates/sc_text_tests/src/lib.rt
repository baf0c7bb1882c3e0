//! Tests of texts, and of what is small enough to be compared as a text: names, plain data, expressions, values,
//! delays, event descriptors, rows, fields, containers with room, timers and links. Worked examples, and each call once
//! with ample memory.
#![tactic(auto)]

#[cfg(test)]
mod descriptors;
#[cfg(test)]
mod expressions;
#[cfg(test)]
mod family;
#[cfg(test)]
mod frame;
#[cfg(test)]
mod names;
#[cfg(test)]
mod plain_data;
#[cfg(test)]
mod ranks;
#[cfg(test)]
mod recipes;
#[cfg(test)]
mod rooms;
#[cfg(test)]
mod rows;
#[cfg(test)]
mod timers;
