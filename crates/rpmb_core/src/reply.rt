//! The reply to a request.
ghost use Rattle.std.specs.Prelude.{◌≡◌, ◌≤◌, if◌then◌else◌, ◌*◌, ◌/◌, ◌++◌, Some, length, drop};
ghost use Rattle.std.specs.List.{AllByRecursion};
ghost use Rattle.rpmb_frame.specs.Frame.{block_count_of, with_block_data};
ghost use Rattle.rpmb_frame.specs.Partition.{block_of};
ghost use Rattle.rpmb_core.specs.Verdict.{verdict};
ghost use Rattle.rpmb_core.specs.Reply.{reply, open_reply, closed, sealed, joined, one_frame};
ghost use Rattle.rpmb_core.specs.Reply.{blocks_from, read_frames, block_frames, GivesBlocks};
ghost use Rattle.rpmb_core.specs.Reply.{is_answered, reply_length};

use crate::codes::OK;
use crate::outcome::Outcome;
use crate::partition::Partition;
use crate::response::{Response, is_answered};
use hmac256::MacKey;
use rpmb_frame::{Command, FRAME_SIZE, Frame, Limits, Request};

/// Where the MAC stands in a frame.
const KEY_MAC: usize = 196;

/// Where the data stands in a frame, 256 bytes.
const DATA: usize = 228;

impl Partition {
    /// Writes the reply to a request that had this result to the front of `out`, and says its
    /// length in bytes: 0, 512, or 512 for each block of a DATA_READ. The partition is the one
    /// after the request, `last` the stored outcome, this request's included. The last frame has
    /// the MAC of the whole reply, where the partition has a key.
    pub fn reply(
        &self,
        request: &Request<'_>,
        code: u16,
        last: Option<Outcome>,
        out: &mut [u8; 8192],
    ) -> usize
        requires { GivesBlocks request.now.command code → verdict self.now request.now ≡ 0 }
        ensures size { result ≡ reply_length request.now.command request.now.writable code }
        ensures len { result ≡ length (reply self.now request.now code last) }
        ensures bytes { out.new ≡ reply self.now request.now code last ++ drop result out.old }
    {
        let len = self.open_reply(request, code, last, out);
        self.seal(&mut out[..len]);
        len
    }

    /// Writes the reply as `reply` does, but for its MAC: `close` under the partition's key puts
    /// that in.
    #[tactic(auto, unfolding(crate::specs::Reply::open_reply, crate::specs::Reply::reply))]
    pub fn open_reply(
        &self,
        request: &Request<'_>,
        code: u16,
        last: Option<Outcome>,
        out: &mut [u8; 8192],
    ) -> usize
        requires { GivesBlocks request.now.command code → verdict self.now request.now ≡ 0 }
        ensures size { result ≡ reply_length request.now.command request.now.writable code }
        ensures len { result ≡ length (open_reply self.now request.now code last) }
        ensures bytes { out.new ≡ open_reply self.now request.now code last ++ drop result out.old }
        ensures closes { closed self.now.key (open_reply self.now request.now code last)
            ≡ reply self.now request.now code last }
    {
        match request.command {
            Command::DataRead { frame } => {
                if code == OK {
                    self.open_read(frame, request.limits, out)
                } else {
                    self.open_frame(request, code, last, out)
                }
            }
            Command::ProgramKey { .. }
            | Command::GetWriteCounter { .. }
            | Command::DataWrite { .. }
            | Command::ResultRead
            | Command::Malformed => self.open_frame(request, code, last, out),
        }
    }

    /// Writes the only frame of a reply that gives no blocks, or nothing where none is due.
    fn open_frame(
        &self,
        request: &Request<'_>,
        code: u16,
        last: Option<Outcome>,
        out: &mut [u8; 8192],
    ) -> usize
        ensures size { result
            ≡ (if is_answered request.now.command request.now.writable then 512 else 0) }
        ensures len { result ≡ length
            (joined (one_frame self.now request.now.command request.now.writable code last)) }
        ensures bytes { out.new
            ≡ joined (one_frame self.now request.now.command request.now.writable code last)
            ++ drop result out.old }
        ensures closes { closed self.now.key
            (joined (one_frame self.now request.now.command request.now.writable code last))
            ≡ joined (sealed self.now.key
            (one_frame self.now request.now.command request.now.writable code last)) }
    {
        if !is_answered(request) {
            return 0;
        }
        let response = Response::to(request, self.counter(), code, last);
        response.put(&mut out[..FRAME_SIZE]);
        FRAME_SIZE
    }

    /// Writes the frames of a DATA_READ that succeeds.
    fn open_read(&self, frame: &[u8; 512], limits: Limits, out: &mut [u8; 8192]) -> usize
        requires some { 1 ≤ block_count_of frame.now }
        requires few { block_count_of frame.now ≤ limits.max_rd_cnt }
        ensures size { result ≡ 512 * block_count_of frame.now }
        ensures len { result ≡ length (joined (block_frames self.now frame.now)) }
        ensures bytes { out.new ≡ joined (block_frames self.now frame.now) ++ drop result out.old }
        ensures closes { closed self.now.key (joined (block_frames self.now frame.now))
            ≡ joined (sealed self.now.key (block_frames self.now frame.now)) }
    {
        let _limit = limits.max_rd_cnt(); // for the checker: the frames fit the reply
        let request = Frame::from_bytes(frame);
        let count = usize::from(request.block_count());
        let mut base = [0; 512];
        Response::to_read(frame, OK).put(&mut base);
        self.put_blocks(&base, usize::from(request.address()), count, out);
        FRAME_SIZE * count
    }

    /// How many bytes the reply to a request has that had this result.
    pub fn reply_len(request: &Request<'_>, code: u16) -> usize
        ensures { result ≡ reply_length request.now.command request.now.writable code }
    {
        match request.command {
            Command::DataRead { frame } if code == OK => {
                FRAME_SIZE * usize::from(Frame::from_bytes(frame).block_count())
            }
            _ => { if is_answered(request) { FRAME_SIZE } else { 0 } }
        }
    }

    /// Puts the MAC of a reply into it, where the partition has a key.
    #[tactic(auto, unfolding(crate::specs::Reply::closed))]
    fn seal(&self, reply: &mut [u8])
        requires whole { length reply.old ≡ 512 * (length reply.old / 512) }
        ensures value { reply.new ≡ closed self.now.key reply.old }
        ensures len { length reply.new ≡ length reply.old }
    {
        match self.mac_key() {
            None => {}
            Some(key) => close(key, reply),
        }
    }

    /// Writes a frame like `base` for each of so many blocks from an address on.
    fn put_blocks(&self, base: &[u8; 512], address: usize, count: usize, out: &mut [u8; 8192])
        requires few { count ≤ 16 }
        requires low { address ≤ 65_535 }
        ensures written { out.new
            ≡ joined (read_frames base.now (blocks_from self.now address count))
            ++ drop (512 * count) out.old }
        ensures whole { AllByRecursion (λ frame. length frame ≡ 512)
            (read_frames base.now (blocks_from self.now address count)) }
        ensures many { length (read_frames base.now (blocks_from self.now address count)) ≡ count }
    {
        for i in 0..count {
            let at = FRAME_SIZE * i;
            self.put_frame(base, address + i, &mut out[at..at + FRAME_SIZE]);
        }
    }

    /// Writes a frame like `base` with the block of this number.
    #[tactic(auto, unfolding(rpmb_frame::specs::Frame::with_block_data))]
    fn put_frame(&self, base: &[u8; 512], index: usize, room: &mut [u8])
        requires low { index ≤ 65_552 }
        requires room { length room.old ≡ 512 }
        ensures { room.new ≡ with_block_data (block_of self.now index) base.now }
    {
        room.copy_from_slice(base);
        self.copy_block(index, &mut room[DATA..DATA + 256]);
    }
}

/// Puts the MAC of a reply's frames, 32 bytes, into the last of them, which closes the reply. A
/// reply without frames gets none.
#[tactic(auto, unfolding(crate::specs::Reply::closed))]
pub fn close(key: &MacKey, reply: &mut [u8])
    requires whole { length reply.old ≡ 512 * (length reply.old / 512) }
    ensures value { reply.new ≡ closed (Some key.now) reply.old }
    ensures len { length reply.new ≡ length reply.old }
{
    let (frames, _) = reply.as_chunks::<512>();
    let count = frames.len();
    if count == 0 {
        return;
    }
    let mac = key.mac(frames);
    let at = FRAME_SIZE * (count - 1) + KEY_MAC;
    reply[at..at + 32].copy_from_slice(&mac);
}
