//! The longest walks that the rules allow: each place of a queue of 256, the last of which refers
//! to a table of 1,024 entries, which is 1,280 descriptors.
use super::descriptors::{
    Descriptor, INDIRECT, NEXT, WRITE, describe, holds, memory_of, put, set_word,
};
use super::devices::check;
use super::queues::{Answer, BAD_RANGE, Bench, ORDER, Queue, Step, TOO_LONG, with_ring};
use super::split_rings::pop_one;
use super::walks::{chain_of, scatters};
use chains::{Chain, Places};
use guest_memory::Memory;
use split_ring::Ring;
use std::alloc::Global;
use std::test::Fail;

// A ring of 256 descriptors at 0: 255 of one byte to be read, the last of a table at 4,096 of
// 1,024 entries of 9 bytes each, which are more than any reply or request has.
fn put_ring(memory: &mut Memory) -> bool {
    for place in 0..255_u16 {
        let at = 40000 + place as u64;
        if !describe(memory, 16 * place as u64, (at, 1, NEXT, place + 1))
            || !put(memory, at, &[(place % 256) as u8])
        {
            return false;
        }
    }
    describe(memory, 4080, (4096, 16384, INDIRECT, 0))
}

// The entries are to be written where `write` is WRITE, and to be read where it is 0.
fn put_table(memory: &mut Memory, write: u16) -> bool {
    for entry in 0..1023_u16 {
        let at = 50000 + 9 * entry as u64;
        let fields = (at, 9, write | NEXT, entry + 1);
        if !describe(memory, 4096 + 16 * entry as u64, fields) {
            return false;
        }
    }
    describe(memory, 20464, (59207, 9, write, 0))
}

fn put_longest(memory: &mut Memory, write: u16) -> bool {
    put_ring(memory) && put_table(memory, write)
}

// It is available too.
fn offers_longest(memory: &mut Memory, write: u16) -> bool {
    put_longest(memory, write) && set_word(memory, 20482, 1)
}

// Whether what is kept of the chain takes the longest reply, which ends where the chain does.
fn takes_the_longest(alloc: Global, memory: &mut Memory, chain: &Chain) -> bool {
    match chain.for_reply(alloc) {
        Ok(kept) => {
            scatters(&kept, memory, &[7; 9216], 9216)
                && holds(memory, 50000, &[7])
                && holds(memory, 59215, &[7, 0])
        }
        Err(_) => false,
    }
}

// How many descriptors the walk of the longest chain reads, which takes the longest reply.
fn count_of_longest(alloc: Global, memory: &mut Memory) -> Option<u64> {
    match chain_of(alloc, memory, 256) {
        Some(found) if takes_the_longest(alloc, memory, &found.chain) => Some(found.count),
        _ => None,
    }
}

#[test]
fn the_longest_chain(rt: HostRuntime) -> Result<(), Fail> {
    let mut memory = memory_of(rt.alloc(), 65536)?;
    let is_put = put_longest(&mut memory, WRITE);
    let count = count_of_longest(rt.alloc(), &mut memory);
    check(is_put && count == Some(1280), "another count")
}

// The available ring and the used ring stand behind the table.
const BEHIND_THE_TABLE: Places = Places {
    descriptors: 0,
    driver: 20480,
    device: 24576,
    indirect: true,
    event_idx: false,
    in_order: false,
};

// Whether a request begins with one byte of each descriptor in the ring, and goes on with zeros.
fn is_request_of_longest(request: &[u8]) -> bool {
    for (place, byte) in request.iter().enumerate() {
        let expected = if place < 255 { place as u8 } else { 0 };
        if *byte != expected {
            return false;
        }
    }
    true
}

// The lengths of the request and of the room for a reply of the longest chain, which the ring pops
// first.
fn lengths_popped(alloc: Global, memory: &mut Memory, ring: &mut Ring) -> Option<(usize, u64)> {
    match pop_one(alloc, memory, ring) {
        Some(popped) if is_request_of_longest(&popped.request) => {
            Some((popped.request.len(), popped.chain.writable_len()))
        }
        _ => None,
    }
}

// By which flags the table is written, and the lengths that are popped then.
type Lengths = (u16, (usize, u64));

// A ring pops the longest chain first, of these lengths.
fn pops_the_longest(bench: &mut Bench<Ring>, lengths: &Lengths) -> Result<(), Fail> {
    let offered = offers_longest(&mut bench.memory, lengths.0);
    let popped = lengths_popped(bench.alloc, &mut bench.memory, &mut bench.ring);
    check(offered && popped == Some(lengths.1), "other lengths")
}

// The longest chain of 255 ranges to be read and 1,024 to be written, and that of 1,279 ranges to
// be read, whose request is too long.
static LONGEST: [Lengths; 2] = [(WRITE, (255, 9216)), (0, (8705, 0))];

#[test]
fn a_ring_pops_the_longest_chains(rt: HostRuntime) -> Result<(), Fail> {
    for lengths in &LONGEST {
        with_ring(
            rt.alloc(),
            65536,
            (BEHIND_THE_TABLE, 256),
            lengths,
            pops_the_longest,
        )?;
    }
    Ok(())
}

// The flags of a descriptor of a packed ring that is available in the first round.
const AVAIL: u16 = 0x0080;

// The same ring and table of a packed queue, by the id 9, but for the last entry. The places of a
// packed table follow each other, and none has NEXT.
fn put_packed(memory: &mut Memory, write: u16) -> bool {
    for place in 0..255_u16 {
        let fields = (40000 + place as u64, 1, place, AVAIL + NEXT);
        if !describe(memory, 16 * place as u64, fields) {
            return false;
        }
    }
    for entry in 0..1023_u16 {
        let fields = (50000 + 9 * entry as u64, 9, 0, write);
        if !describe(memory, 4096 + 16 * entry as u64, fields) {
            return false;
        }
    }
    describe(memory, 4080, (4096, 16384, 9, AVAIL + INDIRECT))
}

// A chain whose table has 1,024 entries.
struct LongTable {
    // Of each entry but the last.
    flags: u16,
    // The last entry of a split and of a packed ring.
    split: Descriptor,
    packed: Descriptor,
    // What a pop of the one answers, and of the other.
    of_split: Answer,
    of_packed: Answer,
}

#[rattlefmt::skip]
static ALL_READ: [LongTable; 5] = [
    // To be written, which is more than any reply has; and to be read, which is more than any
    // request has.
    LongTable { flags: WRITE, split: (59207, 9, WRITE, 0), packed: (59207, 9, 0, WRITE),
        of_split: Answer::Chain(0, 1, 255, 9216), of_packed: Answer::Chain(9, 256, 255, 9216) },
    LongTable { flags: 0, split: (59207, 9, 0, 0), packed: (59207, 9, 0, 0),
        of_split: Answer::Chain(0, 1, 8705, 0), of_packed: Answer::Chain(9, 256, 8705, 0) },
    // Refused at the last entry alone.
    LongTable { flags: WRITE, split: (65536, 1, WRITE, 0), packed: (65536, 1, 0, WRITE),
        of_split: BAD_RANGE, of_packed: BAD_RANGE },
    LongTable { flags: WRITE, split: (59207, 9, 0, 0), packed: (59207, 9, 0, 0),
        of_split: ORDER, of_packed: ORDER },
    // The last entry goes on at the first one; in a packed table NEXT doesn't count.
    LongTable { flags: WRITE, split: (59207, 9, WRITE + NEXT, 0),
        packed: (59207, 9, 0, WRITE + NEXT), of_split: TOO_LONG,
        of_packed: Answer::Chain(9, 256, 255, 9216) },
];

// The first pop gives this, and reads all descriptors: as many as the queue has places, and 1,024.
fn reads_all<R: Queue>(bench: &mut Bench<R>, last: Descriptor, answer: Answer) -> Result<(), Fail> {
    check(describe(&mut bench.memory, 20464, last), "the last entry")?;
    bench.take(&[Step::Pops(1, answer), Step::Reads(1280)])
}

fn reads_all_of_split(bench: &mut Bench<Ring>, row: &LongTable) -> Result<(), Fail> {
    check(
        offers_longest(&mut bench.memory, row.flags),
        "the longest chain",
    )?;
    reads_all(bench, row.split, row.of_split)
}

fn reads_all_of_packed(bench: &mut Bench<packed_ring::Ring>, row: &LongTable) -> Result<(), Fail> {
    check(
        put_packed(&mut bench.memory, row.flags),
        "the longest chain",
    )?;
    reads_all(bench, row.packed, row.of_packed)
}

#[test]
fn a_pop_reads_1280_descriptors_at_most(rt: HostRuntime) -> Result<(), Fail> {
    for row in &ALL_READ {
        with_ring(
            rt.alloc(),
            65536,
            (BEHIND_THE_TABLE, 256),
            row,
            reads_all_of_split,
        )?;
        with_ring(
            rt.alloc(),
            65536,
            (BEHIND_THE_TABLE, 256),
            row,
            reads_all_of_packed,
        )?;
    }
    Ok(())
}
