//! A frame's fields by their bytes (VIRTIO 1.2, 5.12.6).
use crate::tests::checks::same;
use rpmb_frame::Frame;

/// The bytes of a frame: zeros before `from`, and then each the low byte of its own offset.
fn numbered(from: usize) -> [u8; 512] {
    let mut bytes = [0; 512];
    for place in from..512 {
        bytes[place] = (place % 256) as u8;
    }
    bytes
}

/// Whether the fields that are bytes are these ranges.
fn has_ranges(frame: &Frame, bytes: &[u8; 512]) -> bool {
    same(&frame.key_mac(), &bytes[196..228])
        && same(&frame.block_data(), &bytes[228..484])
        && same(&frame.nonce(), &bytes[484..500])
        && same(&frame.body(), &bytes[228..512])
        && same(&frame.to_bytes(), bytes)
}

/// Write counter, address, block count, result and type.
fn numbers_of(frame: &Frame) -> (u32, [u16; 4]) {
    let halves = [
        frame.address(),
        frame.block_count(),
        frame.result(),
        frame.req_resp(),
    ];
    (frame.write_counter(), halves)
}

#[test]
fn fields_of_numbered_bytes(rt: HostRuntime) {
    let bytes = numbered(0);
    let frame = Frame::from_bytes(&bytes);
    assert!(rt; has_ranges(&frame, &bytes));
    assert!(rt; numbers_of(&frame) == (0xf4f5_f6f7, [0xf8f9, 0xfafb, 0xfcfd, 0xfeff]));
}

#[test]
fn a_frame_is_its_fields_after_zeros(rt: HostRuntime) {
    let given = Frame::from_bytes(&numbered(0));
    let made = Frame::zeros()
        .with_key_mac(&given.key_mac())
        .with_block_data(&given.block_data())
        .with_nonce(&given.nonce())
        .with_write_counter(0xf4f5_f6f7)
        .with_address(0xf8f9)
        .with_block_count(0xfafb)
        .with_result(0xfcfd)
        .with_req_resp(0xfeff)
        .to_bytes();
    assert!(rt; made == numbered(196));
}
