//! What helps where the device refused a request with a result.
use crate::counts::result_bit;
use crate::words::Words;
use std::io::Write;

/// What a result says that a request is refused with.
static RESULTS: [(u16, &str, &str); 7] = [
    (
        0x0001,
        "GENERAL_FAILURE",
        "the request isn't whole frames of one type; has no block, or more than max_wr_cnt or \
         max_rd_cnt in the board file (16 where it has none) or than WRITABLE has room for; asks \
         for the result of none; or the host's disk failed",
    ),
    (0x0002, "AUTH_FAILURE", "the request had another --key"),
    (
        0x0003,
        "COUNT_FAILURE",
        "the request had another --counter than read-counter tells",
    ),
    (
        0x0004,
        "ADDR_FAILURE",
        "the request's blocks end behind the guest's last",
    ),
    (
        0x0005,
        "WRITE_FAILURE",
        "the guest has a key already (this very one, where the MAC is right), or the host's disk \
         failed",
    ),
    (
        0x0007,
        "NO_AUTH_KEY",
        "the guest has no key yet; program-key gives it one",
    ),
    (
        0x0080,
        "WRITE_COUNTER_EXPIRED",
        "the guest's counter is at its end, and it writes no more",
    ),
];

/// What is said where the device refused a read with this result.
pub(crate) fn help_with_result(code: u16) -> &'static str {
    match code {
        0x0004 => "--address: the blocks end behind the guest's last one",
        0x0001 =>
            "--count: more than max_rd_cnt of its [[guest]] in the board file (16 where it has \
             none), or than WRITABLE of its chain has room for",
        _ => "the read: ask for the counter, whose answer says more",
    }
}

/// Writes a line for each of the results that requests were refused with. Of an operation on a
/// board's image more is known, and told behind.
pub(crate) fn tell_results<E: Write>(words: &Words<'_>, results: u64, err: &mut E) {
    if words.operation.is_some() {
        return;
    }
    for (code, name, helps) in RESULTS.iter() {
        if results & result_bit(*code) != 0 {
            let _ = writeln!(err, "{name}: {helps}");
        }
    }
}
