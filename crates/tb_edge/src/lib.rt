//! The environment of the program as traits: files, sinks, the clock, the two ends of a lane, and the thread group. Each trait has
//! implementations in memory and over the system.
#![tactic(auto)]

mod clock;
mod crew;
mod fail_calls;
mod files;
mod given;
mod held_files;
mod inlet;
mod job;
mod lane_pair;
mod mem_clock;
mod mem_files;
mod mem_sink;
mod no_crew;
mod outlet;
mod real_clock;
mod real_files;
mod real_sink;
mod sink;
mod sure_clock;
mod sure_files;
mod sure_sink;
mod thread_crew;

pub use clock::{Beat, Clock};
pub use crew::{Crew, CrewFault};
pub use fail_calls::FailCalls;
pub use files::{Bytes, Files, FilesFault, Loaded};
pub use given::{Given, Taken};
pub use held_files::{HeldFile, HeldFiles};
pub use inlet::{Got, Inlet, MOST_LINE};
pub use job::Job;
pub use lane_pair::LanePair;
pub use mem_clock::MemClock;
pub use mem_files::MemFiles;
pub use mem_sink::MemSink;
pub use no_crew::NoCrew;
pub use outlet::Outlet;
pub use real_clock::RealClock;
pub use real_files::RealFiles;
pub use real_sink::RealSink;
pub use sink::{Failed, Sink};
pub use sure_clock::SureClock;
pub use sure_files::SureFiles;
pub use sure_sink::SureSink;
pub use thread_crew::ThreadCrew;
