//! Turns for bench/turns.sh to time. Each line of the input is a number of turns, the name of an event and a chart: a
//! session of the chart is started, and then takes the event in so many turns. Written are the number, the states
//! that are active then and the values of the data, or `stopped` where the session doesn't wait for an event.
#![tactic(auto)]

mod turns;
mod written;

use sc_base::{NoMemory, TextWriter};
use std::alloc::Global;
use std::io::{self, Write};
use written::put_line;

fn main(rt: HostRuntime) -> io::Result<()> {
    let alloc = rt.alloc();
    for line in rt.lines(alloc) {
        let line = line?;
        let mut out = TextWriter::new(alloc);
        match put_line(alloc, &mut out, line.as_str()) {
            Ok(()) => rt.stdout().write_all(out.slice())?,
            Err(NoMemory) => println!(rt; "no memory")?,
        }
    }
    Ok(())
}
