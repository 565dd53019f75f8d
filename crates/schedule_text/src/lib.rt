// Schedules: the texts of moments, durations and repetitions, and when a schedule fires.
//
// Promise: a reader accepts exactly the texts of its form and names the first fault of any other; `advance`
// follows the definition of the firing moments. It depends on `jiff`, for the calendar and the printer of moments.
#![tactic(auto)]

mod advance;
mod calendar;
mod error;
mod go_duration;
mod iso_duration;
mod law;
mod moment;
mod moment_printing;
mod moment_reading;
mod numbers;
mod reading;

pub use advance::{Next, Period, Schedule, add_period};
pub use error::ScheduleError;
pub use go_duration::go_nanos;
pub use law::{
    calendar_law, firing_law, go_duration_law, iso_duration_law, iso_period_law, moment_law,
};
pub use moment::Moment;
pub use moment_printing::print_moment;
pub use moment_reading::read_moment;
pub use reading::read_schedule;
