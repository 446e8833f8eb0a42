//! The formats of a virtqueue.

/// The format of a virtqueue (VIRTIO 1.2, 2.7 and 2.8).
#[derive(Clone, Copy, Debug, PartialEq, Eq)]
pub enum RingKind {
    Split,
    Packed,
}
