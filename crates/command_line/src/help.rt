//! The texts that stand below a command's usage in its help, and what `--version` prints.

/// Behind the program's name: its version, the logic that it was proved with, as `rt version` names
/// it, and the images that it opens.
pub const VERSION: &str = "0.1 (Hovdrang, logic dac8208d650f15bf), images of version 1 and 2";

/// A board and a script, as a reader can type them.
pub const PROGRAM: &str =
    r#"A board file says what the guests are, and in which file their image is kept:

    image = "board.img"     # counts from the folder that rpmbd is started in

    [[guest]]
    capacity = 1            # 1 to 128, in units of 128 KiB

A script says what they do. Here guest 0 offers a request of no bytes, with 512 bytes
for the reply, and then its device is reset; rpmb makes the lines of real requests:

    chain 0 - 512
    reset 0

A line is `chain GUEST READABLE WRITABLE`, `store GUEST ADDRESS BYTES` or `reset GUEST`.
READABLE is the bytes of the request in hex digits, or -; WRITABLE how many bytes its
answer may have, 512 for each frame: below that none comes.

A board without 'image' is in memory, and nothing of it is kept. One image is for one
program at a time. Status 0; 1 for a fault, which is told on standard error as 'rpmbd: N
NAME', and behind that in words; 2 for words that are no command."#;

pub const FORMAT: &str =
    r"Prints 'formatted LEN', the length of the image in bytes, and where version 2 is asked
for 'upgraded' behind it. The file is made, for its owner alone, where it isn't there; its
folder has to be. What the file held is gone: at a terminal it asks before keys go, or what
is no image of this board. In a script it asks nothing, and empties whatever file the board
names: there say --new, which keeps a file that is there. An image of version 2 that is
formatted again is one of version 1, unless version 2 is asked for.
Status 0; 1 for a fault, told on standard error; 2 for words that are no command.";

pub const SHOW: &str =
    r"Prints for each guest 'guest G capacity C key yes counter N', or 'key no counter 0',
and then 'block G A HEX' for each of its blocks that isn't all zeros. Of which version the
image is, `rpmb check BOARD` says. With --json each of these lines is a JSON object.
Status 0; 1 for a fault, told on standard error; 2 for words that are no command.";

pub const UPGRADE: &str =
    r"Prints 'upgraded', or 'already 2' for an image of version 2, which it leaves as it is.
Keys, counters and blocks stay, wherever it is stopped; it may be called again. A write
takes four syncs of the file; on version 2, where a guest writes on, each takes two. There
is no way back to version 1.
Status 0; 1 for a fault, told on standard error; 2 for words that are no command.";

pub const RUN: &str =
    r"Prints for each chain 'used G LEN HEX': the guest, and the length and bytes of the reply,
or '-' for none. Where the guest has spoiled its rings: 'needs-reset G', 'no-answer G',
'bad-used G'. What a printed line tells is settled in the image. Each line goes out as it
comes. Of a board without 'image' nothing is kept once the run has ended.
Where it was stopped, by TERM, by a limit of a file's length (ulimit -f; then without a
word) or otherwise, or its last lines are missing, some requests
may be done whose lines aren't there. `rpmb read-counter` makes the request that tells a
guest's counter: go on with the write that was made for it (--counter). All before that
are done.
Status 0; 1 for a fault, told on standard error; 2 for words that are no command.";

pub const SERVE: &str =
    r"Prints at its end the lines that 'run' prints, those of guest 0 first, then those of
guest 1, and so on.
Where it was stopped before, by TERM or otherwise, nothing is printed, and some requests
of each guest may be done. `rpmb read-counter` makes the request that tells a guest's
counter: go on with the write of it that was made for that (--counter). All of that guest's
before are done.
Status 0; 1 for a fault, told on standard error; 2 for words that are no command.";
