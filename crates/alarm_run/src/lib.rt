//! The run that an alarm stands for: the first one of the session's log that visits an unsafe
//! location.
#![tactic(auto)]

mod entries;
mod lasts;
mod walking;

pub use walking::alarm_run;
