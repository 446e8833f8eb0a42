//! HMAC with SHA-256 (RFC 2104), and the MAC of RPMB frames (VIRTIO 1.2, 5.12.6).
#![tactic(auto)]

mod hmac_sha256;
mod mac;

pub use hmac_sha256::hmac;
pub use mac::{MacKey, mac_of};
