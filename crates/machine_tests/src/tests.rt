//! A machine by its public calls, as a monitor makes them.
mod answers;
mod driver;
mod going_on;
mod needs;
mod refusals;
mod rig;
