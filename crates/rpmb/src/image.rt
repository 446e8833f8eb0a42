//! The image of a board, on which scripts are performed in this process: the program may start no
//! other, and so not `rpmbd` either.
ghost use Rattle.std.specs.Prelude.{IfOk, List, Some};
ghost use Rattle.script.specs.Line.{Said};
ghost use Rattle.commands.specs.Image.{Ran};
ghost use Rattle.commands.specs.Transcript.{Says, StoresNothing};

use crate::stop::Stop;
use command_line::Command;
use commands::{
    Fault, Task, open_image, read_image_board, reason_of_end, report, report_refusal, run,
    write_reason,
};
use disk::{Disk, FileDisk};
use guest_driver::BoardSetup;
use rpmb_frame::GuestConfig;
use script::read_number;

/// What a script of requests is called where it is told of.
const REQUEST: &str = "the request";

/// What a guest is told to be by the result and the type that its reply ends with.
static HELP: [(&str, &str); 3] = [
    (
        "00050100",
        "has a key already: this very one where the MAC is right, else another",
    ),
    ("00070200", "has no key yet; program-key gives it one"),
    ("00800300", "is at the end of its counter: no more writes"),
];

/// Whether one of these lines ends so.
fn ends_so(lines: &[u8], end: &str) -> bool {
    lines
        .split(|byte| *byte == b'\n')
        .any(|line| line.ends_with(end.as_bytes()))
}

/// A board, the paths of its file and of its image, and the word of the guest that is asked for.
#[derive(Drop)]
pub struct Place<'a> {
    file: &'a str,
    guest: &'a str,
    setup: BoardSetup,
    image: String,
}

/// Tells in the words of `rpmbd` why no board or no image is opened.
fn told(rt: &HostRuntime, refusal: &commands::Refusal) -> Stop {
    Stop {
        status: report_refusal(refusal, &mut rt.stderr()),
    }
}

/// Tells that the board has no guest of this word, and which it has.
fn tell_no_guest(rt: &HostRuntime, file: &str, guest: &str, count: usize) {
    let last = count.saturating_sub(1);
    let guests = if last == 0 { "guest" } else { "guests" };
    let expected = "BadGuest: expected for --guest a guest of the board";
    let _ = eprintln!(rt; "rpmb: {expected}, 0 to {last}, got {guest:?}");
    let _ = eprintln!(rt; "{file}: has {count} {guests}; a further [[guest]] makes another board");
}

impl<'a> Place<'a> {
    /// Reads a board file. Refused where it can't be read, is no board, names no image, or lacks
    /// the guest.
    pub fn of(rt: &HostRuntime, file: &'a str, guest: &'a str) -> Result<Place<'a>, Stop> {
        let (setup, image) = match read_image_board(rt, file) {
            Ok(read) => read,
            Err(refusal) => return Err(told(rt, &refusal)),
        };
        let place = Place {
            file,
            guest,
            setup,
            image,
        };
        if place.last_block().is_none() {
            tell_no_guest(rt, file, guest, place.setup.board().guests().len());
            return Err(Stop { status: 1 });
        }
        Ok(place)
    }

    /// Opens the image, which no other program has until it is closed. Refused where it is not
    /// there, or another program has it.
    pub fn open(&self, rt: &HostRuntime) -> Result<FileDisk, Stop> {
        match open_image(rt, self.image.as_str()) {
            Ok(disk) => Ok(disk),
            Err(refusal) => Err(told(rt, &refusal)),
        }
    }

    /// How the guest is set up, where the board has it.
    fn config(&self) -> Option<&GuestConfig> {
        let guests = self.setup.board().guests();
        read_number(self.guest).and_then(|number| guests.get(number as usize))
    }

    /// The last block of the guest, where the board has it.
    fn last_block(&self) -> Option<u32> {
        let guest = self.config()?;
        Some(
            512u32
                .saturating_mul(u32::from(guest.capacity))
                .saturating_sub(1),
        )
    }

    /// Tells where the blocks of the guest end.
    pub fn tell_end(&self, rt: &HostRuntime) {
        let (file, number) = (self.file, self.guest);
        if let Some(last) = self.last_block() {
            let _ = eprintln!(rt; "{file}: the last block of guest {number} is {last}");
        }
    }

    /// Refused where so many blocks from an address on reach past the last one of the guest.
    pub fn check_end(&self, rt: &HostRuntime, address: u64, count: u64) -> Result<(), Stop> {
        let end = address.saturating_add(count).saturating_sub(1);
        match self.last_block() {
            Some(last) if end > u64::from(last) => {
                let _ = eprintln!(rt; "rpmb: PastEnd: expected no block after {last}, got {end}");
                self.tell_end(rt);
                Err(Stop { status: 1 })
            }
            _ => Ok(()),
        }
    }

    /// Tells how many blocks a request may have, where a reply of lines may be of one that had
    /// more.
    fn tell_limits(&self, rt: &HostRuntime, lines: &[u8]) {
        let (file, number) = (self.file, self.guest);
        let Some(guest) = self.config() else {
            return;
        };
        if ends_so(lines, "00010000") {
            let most = guest.max_wr_cnt;
            let text = "blocks at once (max_wr_cnt): say --max-blocks";
            let _ = eprintln!(rt; "{file}: guest {number} writes at most {most} {text} {most}");
        }
        if ends_so(lines, "00010400") {
            let most = guest.max_rd_cnt;
            let text = "blocks at once (max_rd_cnt): say --count";
            let _ = eprintln!(rt; "{file}: guest {number} reads at most {most} {text} {most}");
        }
    }

    /// Tells what helps, where a reply of lines ends with a result and a type of which it is known.
    pub fn tell_help(&self, rt: &HostRuntime, lines: &[u8]) {
        let (file, number) = (self.file, self.guest);
        if ends_so(lines, "00040300") || ends_so(lines, "00040400") {
            self.tell_end(rt);
        }
        self.tell_limits(rt, lines);
        for (end, what) in HELP.iter() {
            if ends_so(lines, end) {
                let _ = eprintln!(rt; "{file}: guest {number} {what}");
            }
        }
    }

    /// Tells in the words of `rpmbd` the fault that ended a script, and why.
    fn tell_fault<D: Disk>(
        &self,
        rt: &HostRuntime,
        script: &str,
        fault: Fault,
        disk: &mut D,
        answers: &mut Vec<u8>,
    ) -> Stop {
        let task = Task {
            command: Command::Run {
                board: self.file,
                script: REQUEST,
            },
            setup: &self.setup,
            script,
            image: Some(self.image.as_str()),
        };
        let mut err = rt.stderr();
        let status = report(fault, &mut err);
        let reason = reason_of_end(rt.alloc(), task, fault, Some(disk), answers);
        write_reason(reason.as_ref(), &mut err);
        Stop { status }
    }

    /// Performs a script on the image, gives the lines of its answers, and gives the image back. A
    /// fault that ends it is told; the lines are those before it then.
    pub fn perform<D: Disk>(
        &self,
        rt: &HostRuntime,
        script: &str,
        disk: D,
        answers: &mut Vec<u8>,
    ) -> Result<D, Stop>
        ensures { IfOk result (λ left. (lines : List Said)
            → Says self.now.setup.board script.now lines → StoresNothing lines
            → Ran self.now.setup.board (D.state disk) (D.state left) lines
            (Some answers.old.items) (Some answers.new.items)) }
    {
        let (ended, mut disk) = run(rt.alloc(), &self.setup, script, disk, answers);
        match ended {
            Ok(()) => Ok(disk),
            Err(fault) => Err(self.tell_fault(rt, script, fault, &mut disk, answers)),
        }
    }
}
