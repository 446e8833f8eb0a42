//! Frames, MACs, partitions and boards, each by bytes from the standards or written by hand.
mod boards;
mod checks;
mod frames;
mod limits;
mod macs;
mod partitions;
