//! A frame's fields, what a chain's bytes ask for, and the configuration (VIRTIO 1.2, 5.12).
mod classification;
mod configuration;
mod fields;
