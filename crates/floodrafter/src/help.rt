// What is told of the program itself.
use requests::packets::HEADER;
use std::io;
use std::io::Write;

// One more with each change that may answer a text otherwise than before. 2: a square can't be negative. 3: a pin line.
// 4: six unknowns. 5: the visit line of a result.
pub fn version<W: Write>(to: &mut W) -> io::Result<()> {
    to.write_all(b"floodrafter 5\n")
}

pub fn commands<W: Write>(to: &mut W) -> io::Result<()> {
    to.write_all(
        b"floodrafter solve [FILE]    the result of a job text, or its fault and line\n\
        floodrafter show [FILE]     the same, and each unknown's range in units\n\
        floodrafter image [FILE]    the image K of a job's starting box, before it is used: klo=, khi=\n\
        floodrafter step [FILE]     the same, and what it decides: verdict= none, unique, stalled or next, lo=, hi=\n\
        floodrafter halve DEPTH [FILE]\n\
        \x20                           all closing positions, by halvings 0 to 8 deep: job=, boxes=, then for each\n\
        \x20                           box its word, box= unique or open, and lo=, hi=\n\
        floodrafter job [FILE]      reads a job text and writes it again\n\
        floodrafter result [FILE]   reads a result text and writes it again\n\
        floodrafter batch [FILE]    many requests in one run: floodrafter help batch tells how\n\
        floodrafter help [batch]    this page, or the packets of batch; --help and -h too\n\
        floodrafter version         the version; --version too\n\
        Without FILE, and where it is -, standard input is read. A fault is two lines, fault=N and line=L,\n\
        and standard error says what was expected.\n\
        Exit status: 0 answered; 1 a fault; 2 not run: a wrong call, a file that cannot be read, an output\n\
        that cannot be written, or a batch whose requests are not framed as they should be.\n",
    )
}

fn requests<W: Write>(to: &mut W) -> io::Result<()> {
    to.write_all(
        b"floodrafter batch [FILE] answers many requests in one run, in their order.\n\
        A request is a line and a text:\n\
        \x20   OP LENGTH   what is asked, how many bytes the text has, one line feed\n\
        \x20   TEXT        so many bytes\n\
        What can be asked, with one space between words:\n\
        \x20   solve                     the result of a job text\n\
        \x20   job, result               the text again\n\
        \x20   parts L1,L2,..            as job, the text taken in parts of these lengths, the rest last\n\
        \x20   image                     K of a job text's own box\n\
        \x20   image LO HI               K of a job text and this box\n\
        \x20   decide N LO HI KLO KHI    what a box of N unknowns and its image decide; LENGTH is 0\n\
        \x20   halve DEPTH ROOM          all closing positions of a job text, in a list of ROOM boxes, at most 256\n\
        And of a table of eight rooms, all free at the start of the run; LENGTH is 0 but for open:\n\
        \x20   clear                     all rooms are free, and visits count from 1 again\n\
        \x20   open                      a job text takes the lowest free slot: slot=, visit=\n\
        \x20   step SLOT VISIT           one step of the visit's job, and the reading after it\n\
        \x20   reading SLOT VISIT ROOM   the reading, if ROOM bytes hold it; at most 4096\n\
        \x20   close SLOT VISIT          the slot is free\n\
        LO, HI, KLO and KHI are lists joined by commas, of numbers in marks of up to 18 digits; a missing\n\
        place is 0. LENGTH, N, L1,L2,.., SLOT, VISIT and ROOM are in digits with no leading zero. Bytes of\n\
        a line, its line feed among them, at most: ",
    )
}

fn answers<W: Write>(to: &mut W) -> io::Result<()> {
    to.write_all(
        b"\nAn answer is a line and a text:\n\
        \x20   LENGTH      how many bytes the answer has, one line feed\n\
        \x20   ANSWER      so many bytes: the lines of what was asked, or fault= and line=\n\
        All answers to what has been read are written before more is read, so a request can wait for the\n\
        answer to the one before it.\n\
        Where a line is not right, and where the input ends within a request, one line that begins with\n\
        error= says what was expected, and the run ends. Exit status: 0 where each request was answered, if\n\
        only by a fault; 2 where not.\n",
    )
}

pub fn packets<W: Write>(to: &mut W) -> io::Result<()> {
    requests(to)?;
    write!(to, "{HEADER}")?;
    answers(to)
}
