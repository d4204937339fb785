//! Tests that no line of a data file can express. They test the shared bus, bells, and a thread group, whose threads run concurrently; a
//! core that follows a log or has rejected calls; files, sinks, and clocks; and calls that neither the program nor a line of a data file
//! makes.
#![tactic(auto)]

#[cfg(test)]
mod bells;
#[cfg(test)]
mod cores;
#[cfg(test)]
mod crowd;
#[cfg(test)]
mod edge;
#[cfg(test)]
mod jobs;
#[cfg(test)]
mod lock;
#[cfg(test)]
mod reads;
#[cfg(test)]
mod values;
#[cfg(test)]
mod workers;
