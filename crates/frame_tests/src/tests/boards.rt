//! Board files that are read: the guests and the image that each names. `examples/boards` has the
//! ones that are refused.

use board_file::read_board;
use guest_driver::{BoardSetup, DriverConfig};
use mmio_transport::RingKind;
use rpmb_frame::GuestConfig;
use std::test::Fail;

/// A board file that is read.
struct BoardFile {
    text: &'static str,
    /// How many guests it has.
    count: usize,
    /// The last of them.
    last: GuestConfig,
    /// How its driver sets up its queue.
    driver: DriverConfig,
    /// The path of its image, or nothing.
    image: &'static str,
}

const DEFAULTS: GuestConfig = GuestConfig {
    capacity: 1,
    max_wr_cnt: 16,
    max_rd_cnt: 16,
    memory: 1_048_576,
};

const DRIVER: DriverConfig = DriverConfig {
    queue: 16,
    ring: RingKind::Split,
    indirect: false,
    event_idx: true,
    in_order: false,
};

/// A guest that names its capacity alone.
const ALONE: BoardFile = BoardFile {
    text: "[[guest]]\ncapacity = 1",
    count: 1,
    last: DEFAULTS,
    driver: DRIVER,
    image: "",
};

/// One guest, or two, and boards of each key.
#[rattlefmt::skip]
static READ: [BoardFile; 6] = [
    ALONE,
    BoardFile { text: "# one guest\r\n[[guest]]\r\ncapacity = 0x1\r\n", ..ALONE },
    BoardFile {
        text: "image = 'a b.img'\nguest = [{ capacity = 1, memory = 1_048_576 }]",
        image: "a b.img",
        ..ALONE
    },
    BoardFile {
        text: "[[guest]]\ncapacity = 1\nmemory = 271296\n",
        last: GuestConfig { memory: 271_296, ..DEFAULTS },
        ..ALONE
    },
    BoardFile {
        text: "[[guest]]\ncapacity = 1\n[[guest]]\nevent_idx = false\nindirect = false
            ring = 'split'\nqueue = 2\nmemory = 65536\nmax_rd_cnt = 1\nmax_wr_cnt = 1
            capacity = 128",
        count: 2,
        last: GuestConfig { capacity: 128, max_wr_cnt: 1, max_rd_cnt: 1, memory: 65_536 },
        driver: DriverConfig { queue: 2, event_idx: false, ..DRIVER },
        ..ALONE
    },
    // The places of a packed ring are any number, and its layout is a little smaller.
    BoardFile {
        text: "[[guest]]\ncapacity = 1\nring = 'packed'\nindirect = true\nqueue = 3
            memory = 65536",
        last: GuestConfig { memory: 65_536, ..DEFAULTS },
        driver: DriverConfig { queue: 3, ring: RingKind::Packed, indirect: true, ..DRIVER },
        ..ALONE
    },
];

impl BoardFile {
    fn names(&self, setup: &BoardSetup, image: Option<&String>) -> bool {
        let (guests, drivers) = (setup.board().guests(), setup.drivers());
        let path = match image {
            Some(path) => path.as_str(),
            None => "",
        };
        guests.len() == self.count
            && guests.last() == Some(&self.last)
            && drivers.len() == self.count
            && drivers.last() == Some(&self.driver)
            && path == self.image
    }
}

#[test]
fn reads_boards(rt: HostRuntime) -> Result<(), Fail> {
    for (at, file) in READ.iter().enumerate() {
        let (setup, image) = read_board(rt.alloc(), file.text)?;
        assert!(rt; file.names(&setup, image.as_ref()), "at file {at}");
    }
    Ok(())
}

/// Board files of one guest that names its capacity alone, with that.
static CAPACITIES: [(&str, u8); 3] = [
    ("[[guest]]\ncapacity = 1\n", 1),
    ("[[guest]]\ncapacity = 2\n", 2),
    ("[[guest]]\ncapacity = 128\n", 128),
];

/// A guest that names its capacity alone, and its driver, are those that other tests take.
#[test]
fn reads_capacities_alone(rt: HostRuntime) -> Result<(), Fail> {
    for (text, capacity) in &CAPACITIES {
        let (setup, image) = read_board(rt.alloc(), *text)?;
        let guest = GuestConfig::of_capacity(*capacity);
        let is_alone = setup.board().guests() == [guest].as_slice()
            && setup.drivers() == [DriverConfig::usual()].as_slice()
            && image.is_none();
        assert!(rt; is_alone, "capacity {capacity}");
    }
    Ok(())
}
