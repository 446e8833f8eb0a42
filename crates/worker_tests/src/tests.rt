//! Guests that are served by threads, and the schedules that a test brings about.
mod alone;
mod asking;
mod devices;
mod faults;
mod full;
mod gates;
mod many;
mod runs;
mod scene;
mod stopped;
mod threads;
mod waiting;
mod wrong;
