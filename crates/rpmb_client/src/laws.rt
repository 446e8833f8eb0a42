//! Laws of what is made: what it is to `rpmbd`, and to a partition.
ghost use Rattle.std.specs.Prelude.{◌≡◌, ◌≤◌, ℕ, List, length};
ghost use Rattle.rpmb_frame.specs.Limits.{Limits};
ghost use Rattle.rpmb_client.specs.Laws.{LinesAreRead, MadeCounter, MadeReads, MadeResult};
ghost use Rattle.rpmb_client.specs.Laws.{MadeWrites, ProgramsKey};

/// A line that was made reads, in a script for a board with that guest, as exactly that chain.
pub fn made_lines_are_read()
    ensures { LinesAreRead }
{}

/// The made request for a key is a PROGRAM_KEY with its RESULT_READ. A partition without a key
/// accepts it, and has that key then.
pub fn made_keys_are_programmed()
    ensures { (key : List ℕ) (limits : Limits) → length key ≡ 32 → 1 ≤ limits.max_wr_cnt
        → ProgramsKey key limits }
{}

/// Made writes are classified as DATA_WRITE of their frames, and a partition with that key, that
/// write counter and that room accepts them, unless the counter is at its end.
pub fn made_writes_are_accepted()
    ensures { MadeWrites }
{}

/// Made reads are classified as DATA_READ, and succeed on a partition with a key and that room.
pub fn made_reads_succeed()
    ensures { MadeReads }
{}

/// Made requests for the counter and for a result are classified as such.
pub fn made_questions_are_asked()
    ensures counter { MadeCounter }
    ensures outcome { MadeResult }
{}
