//! Whole requests of one guest, each from its offer to its reap, beside the MACs that they need.
use crate::batches::{Subject, time_kind};
use crate::clock::{Extent, NO_MEMORY, Row, Stop, Times, now, print_row, since};
use crate::images::{LIFE, new_image};
use crate::macs::time_keyed;
use crate::requests::{Kind, mixed};
use board::Board;
use disk::Disk;
use guest_driver::BoardSetup;
use host::{Answer, Host};
use mmio_transport::RingKind;
use std::alloc::Global;

/// The bytes of the longest request.
const LONGEST: usize = 8704;

/// What takes chains to their end. Its method promises nothing, for the same reason.
trait Chains: Drop {
    fn end_of(&mut self, request: &[u8], kind: Kind) -> Result<Answer, Stop>;
}

impl<D: Disk + Drop> Chains for Host<D> {
    fn end_of(&mut self, request: &[u8], kind: Kind) -> Result<Answer, Stop> {
        if request.len() > LONGEST {
            return Err("too long a request");
        }
        self.chain(0, request, kind.writable())
            .or(Err("a chain without an answer"))
    }
}

/// Takes the chains of a batch to their ends, one after another; each answer is let go at once.
fn take_each<C: Chains>(host: &mut C, kind: Kind, batch: &[u8], before: u32) -> Result<u32, Stop> {
    let mut all = Ok(before);
    for request in batch.chunks(kind.length()) {
        all = match (all, host.end_of(request, kind)) {
            (Ok(before), Ok(Answer::Used(reply))) => mixed(kind, &reply, before),
            (Ok(_), Ok(_stuck)) => Err("a chain without a reply"),
            (Ok(_), Err(stop)) => Err(stop),
            (Err(stop), _answer) => Err(stop),
        };
    }
    all
}

/// A host of one guest, and the requests that it is to be asked.
#[derive(Drop)]
struct Asked<C: Chains> {
    host: C,
    requests: Vec<u8>,
    sum: u32,
}

impl<C: Chains> Subject for Asked<C> {
    fn offer(&mut self, kind: Kind, counter: u32) -> Result<(), Stop> {
        kind.put(&mut self.requests, counter)
    }

    fn answer(&mut self, rt: &HostRuntime, kind: Kind) -> Times {
        let start = now(rt);
        let sum = take_each(&mut self.host, kind, &self.requests, self.sum);
        let own = sum.and(since(rt, start));
        let count = (self.requests.len() / kind.length() % 65_536) as u32;
        let (calls, frames) = kind.macs();
        let (base, _) = time_keyed(rt, count.saturating_mul(calls), frames);
        self.sum = sum.unwrap_or(0);
        self.requests.clear();
        Times { own, base }
    }

    fn sum(&self) -> u32 {
        self.sum
    }
}

/// A host over an image, with its device in service.
fn host_on<D: Disk + Drop>(alloc: Global, disk: D, setup: &BoardSetup) -> Result<Host<D>, Stop> {
    match Board::open(alloc, disk, LIFE, setup.board()) {
        Ok(board) => Host::new(alloc, board, setup).ok().ok_or(NO_MEMORY),
        Err(_) => Err("no image of the board"),
    }
}

/// Takes what is asked to its end.
fn time_chains<C: Chains>(
    rt: &HostRuntime,
    extent: Extent,
    host: C,
    name: &'static str,
    kind: Kind,
) -> Row {
    let mut asked = Asked {
        host,
        requests: Vec::new(rt.alloc()),
        sum: 0,
    };
    time_kind(rt, &mut asked, kind, extent, (name, "its MACs"))
}

fn time_host<D: Disk + Drop>(
    rt: &HostRuntime,
    extent: Extent,
    (setup, disk): (BoardSetup, D),
    name: &'static str,
    kind: Kind,
) -> Result<Row, Stop> {
    match host_on(rt.alloc(), disk, &setup) {
        Ok(host) => Ok(time_chains(rt, extent, host, name, kind)),
        Err(stop) => Err(stop),
    }
}

/// What a row is called, through a queue of which kind, and of which kind the requests are.
type Asks = (&'static str, RingKind, Kind);

fn time_ring(rt: &HostRuntime, extent: Extent, (name, ring, kind): Asks) -> Result<(), Stop> {
    let image = new_image(rt.alloc(), ring)?;
    let row = time_host(rt, extent, image, name, kind)?;
    print_row(rt, extent, &row)
}

static ROWS: [Asks; 6] = [
    ("split, counter", RingKind::Split, Kind::Counter),
    ("split, write of 1 block", RingKind::Split, Kind::Write),
    ("split, read of 16 blocks", RingKind::Split, Kind::Read),
    ("packed, counter", RingKind::Packed, Kind::Counter),
    ("packed, write of 1 block", RingKind::Packed, Kind::Write),
    ("packed, read of 16 blocks", RingKind::Packed, Kind::Read),
];

/// Times so many whole requests of each kind, through a split queue and a packed one.
pub fn time_device(rt: &HostRuntime, extent: Extent) -> Result<(), Stop> {
    let mut all = Ok(());
    for asks in &ROWS {
        all = all.and(time_ring(rt, extent, *asks));
    }
    all
}
