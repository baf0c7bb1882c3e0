//! Theorems, without a program: a microstep leaves a legal configuration and records of one, and a turn that leaves its
//! session running leaves a session that fits its chart.
#![tactic(auto)]
