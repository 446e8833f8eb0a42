//! The help of each command: what it prints, and its statuses. Before that stand its name, the
//! names of its options and what it is, with bars between; a question mark ends the name of an
//! option that it doesn't need.

pub const PROGRAM: &str = "\
The lines that these commands make go into a script, and the lines that `rpmbd run`\n\
prints of it into explain or read-data:\n\
\n  \
rpmb program-key --guest 0 --key @key.hex > script.txt\n  \
rpmb write --guest 0 --key @key.hex --counter 0 --address 0 --file FILE --pad >> script.txt\n  \
rpmbd run BOARD script.txt | rpmb explain --key @key.hex\n\
\n  \
rpmb read --guest 0 --address 0 --count 4 --nonce HEX > read.txt\n  \
rpmbd run BOARD read.txt | rpmb read-data --key @key.hex --nonce HEX --length 1000\n\
\n\
On a board that names an image, do makes the request, performs it and reads the answer:\n\
\n  \
rpmb do BOARD program-key --guest 0 --key @key.hex\n  \
rpmb do BOARD write --guest 0 --key @key.hex --address 0 --file FILE --pad\n  \
rpmb do BOARD read --guest 0 --key @key.hex --address 0 --count 4 --length 1000\n\
\n\
A block has 256 bytes. A key is programmed once, and can't be taken back. explain and\n\
read-counter tell the write counter, which the next write has to name. The help of each\n\
command says what it prints, and its statuses.";

pub const PROGRAM_KEY: &str = "\
program-key|guest key|Makes the line that programs the key and asks for the result|\
Prints one line `chain G HEX W` for a script: PROGRAM_KEY, with the RESULT_READ that\n\
asks for its result. A guest's key can be programmed once: the result WRITE_FAILURE says\n\
that the guest has a key already, or that the write of it failed.\n\
\n\
Status: 0 where all is printed, 1 where a value is refused, with a line on\n\
standard error that says what was expected and what was given, 2 for words\n\
that aren't understood.";

pub const READ_COUNTER: &str = "\
read-counter|guest nonce|Makes the line that asks for the write counter|\
Prints one line `chain G HEX W` for a script: GET_WRITE_COUNTER. explain says the\n\
counter of the reply.\n\
\n\
Status: 0 where all is printed, 1 where a value is refused, with a line on\n\
standard error that says what was expected and what was given, 2 for words\n\
that aren't understood.";

pub const WRITE: &str = "\
write|guest key counter address data? file? pad? max-blocks? no-result?|\
Makes the lines that write blocks|\
Prints a line `chain G HEX W` for a script for each write of at most N blocks (16, where\n\
--max-blocks isn't given): DATA_WRITE, with the RESULT_READ that asks for its result\n\
unless --no-result is given. The lines go on by one in their write counters: the first is\n\
for --counter, line K for K - 1 more. The bytes come from just one of --data and --file.\n\
They are whole blocks, unless --pad is given.\n\
\n\
Status: 0 where all is printed, 1 where a value is refused, with a line on\n\
standard error that says what was expected and what was given, 2 for words\n\
that aren't understood.";

pub const READ: &str = "\
read|guest address count nonce|Makes the line that reads blocks|\
Prints one line `chain G HEX W` for a script: DATA_READ. read-data takes the blocks out\n\
of the reply by the same nonce.\n\
\n\
Status: 0 where all is printed, 1 where a value is refused, with a line on\n\
standard error that says what was expected and what was given, 2 for words\n\
that aren't understood.";

pub const RESULT: &str = "\
result|guest|Makes the line that asks for the result of the last key or write|\
Prints one line `chain G HEX W` for a script: RESULT_READ.\n\
\n\
Status: 0 where all is printed, 1 where a value is refused, with a line on\n\
standard error that says what was expected and what was given, 2 for words\n\
that aren't understood.";

pub const EXPLAIN: &str = "\
explain|keys? asked-nonce? json?|\
Reads the lines of `rpmbd run` from standard input, and says what each reply is|\
Prints for each line `used G LEN HEX` of standard input a line for each frame of the\n\
reply: its type, result and fields, whether the nonce is right (with --nonce) and whether\n\
the MAC is (with --key), and a block in hex digits, and as text where it is one. Any other\n\
line is printed as it is; one that begins with `used`, or has that word further on, was\n\
torn, and (torn: ..) stands behind it, and (of a script: ..) behind one of a script. Each\n\
is printed as it comes.\n\
A reply of 0 bytes is told as such, and counts as one: its request asked for none, as by\n\
--no-result, or had no room. WRITABLE of its chain is to be 512 or a multiple.\n\
With --json each of these is a JSON object in a line, and other lines stand in one too.\n\
\n\
Status: 0; 1 where no reply came, a line was torn or of a script, a MAC or a nonce was wrong,\n\
only other guests than that of a key answered or a value is refused, 2 for words that aren't\n\
understood, and 3 where an answer has another result than OK and none was wrong. With 1 and\n\
3 a line on standard error says why.";

pub const READ_DATA: &str = "\
read-data|key asked-nonce length?|\
Reads the lines of `rpmbd run` from standard input, and writes the blocks of a read|\
Prints the bytes of the blocks that a read gave, and nothing else. Of several lines\n\
`used G LEN HEX` on standard input, as many as come, it takes the one that has the nonce.\n\
\n\
Status: 0 where they are printed; 1, and nothing is printed, where the MAC or the nonce\n\
is wrong, or there is no such answer, with a line on standard error that says which; 2 for\n\
words that aren't understood; 3 where the device refused the read in a right answer.";

pub const CHECK: &str = "\
check|BOARD SCRIPT?|Says whether `rpmbd` reads a board file and a script, and if not, why|\
Prints `ok: N guests, image \"PATH\"`, with the version of the image where it is there, or\n\
`in memory` in its place, and `guest G: capacity C (K KiB)` for each guest; behind that a\n\
line where the script may have been cut. `ok` says that `rpmbd run` reads the board file,\n\
and the script for it where one is named, that no line stores beyond its guest's memory,\n\
and that the image isn't there, or begins as one of this board.\n\
\n\
`rpmbd serve` also refuses a `store` line, and `rpmbd format`, `show` and\n\
`upgrade` a board without the key image.\n\
\n\
Status: 0 for ok; 1 where a file isn't read or the image is none of this board, with a line\n\
on standard error that says which key or which line and word, what was expected, and what\n\
stands there; 2 for words that aren't understood.";

pub const DO: &str = "\
do|BOARD|Performs one operation on the image of a board, from its request to its answer|\
Works on the image that the board file names, and holds its lock from before the first\n\
request to the end: it is not for an image that a running rpmbd or a monitor has, which\n\
is refused. A board without an image is refused too, since nothing would be kept. Nonces\n\
are random.\n\
\n  \
rpmb do BOARD program-key --guest 0 --key @key.hex\n  \
rpmb do BOARD read-counter --guest 0 --key @key.hex\n  \
rpmb do BOARD write --guest 0 --key @key.hex --address 0 --file FILE --pad\n  \
rpmb do BOARD read --guest 0 --key @key.hex --address 0 --count 4\n\
\n\
Status: 0; 1 where a value is refused, a MAC or a nonce was wrong, or the board or its\n\
image came to a fault, which is told in the two lines of rpmbd; 2 for words that aren't\n\
understood; 3 where the device refused the request in a right answer.";

pub const DO_KEY: &str = "\
program-key|guest key|Programs the key, which can't be taken back|\
Prints what explain says of the answer. Where another key stands there, its MAC is wrong.\n\
\n\
Status: 0 where the key is programmed; 1 where a value is refused, the MAC was wrong, or\n\
the board or its image came to a fault; 2 for words that aren't understood; 3 where this\n\
very key stood there already.";

pub const DO_READ_COUNTER: &str = "\
read-counter|guest key?|Reads the write counter|\
Prints what explain says of the answer, with the write counter. The MAC is looked at\n\
where a key is given. Without a key on the device the result is NO_AUTH_KEY, and no MAC\n\
is right.\n\
\n\
Status: 0; 1 where a value is refused, the MAC or the nonce was wrong, or the board or\n\
its image came to a fault; 2 for words that aren't understood; 3 where the device refused\n\
the request and none of these was wrong.";

pub const DO_WRITE: &str = "\
write|guest key address data? file? pad? max-blocks?|\
Writes blocks, under the write counter that it reads first|\
Reads the write counter, and writes under it where the MAC and the nonce of that answer\n\
are right: at most N blocks a request (16, where --max-blocks isn't given). The bytes come\n\
from just one of --data and --file. They are whole blocks, unless --pad is given. Past the\n\
last block of the guest nothing is written. Prints what explain says of each answer to a\n\
write, or of the answer with the counter, where it isn't used.\n\
\n\
It prints at its end. Where it was stopped before, the first blocks may be written, in\n\
their order, and the last not. Write all of them again; or, where read-counter told the\n\
counter before, go on behind the requests that it has counted since, each of N blocks, by\n\
--address and the rest of the file.\n\
\n\
Status: 0 where all is written; 1 where a value is refused, a MAC or a nonce was wrong,\n\
or the board or its image came to a fault; 2 for words that aren't understood; 3 where the\n\
device refused a write in a right answer.";

pub const DO_READ: &str = "\
read|guest key address count length?|Reads blocks, and writes their bytes|\
Prints the bytes of the blocks, and nothing else.\n\
\n\
Status: 0 where they are printed; 1, and nothing is printed, where a value is refused, the\n\
MAC or the nonce was wrong, or the board or its image came to a fault; 2 for words that\n\
aren't understood; 3 where the device refused the read in a right answer.";
