//! What help says of each subcommand beside its options. It stands alone: each line of a script, how its answer begins,
//! and each label. tools/check-documents compares it with docs/FORMATS.md, which has the whole.

/// The program's version, and the toolchain that proves this commit, as `rt version` prints it.
pub(crate) const VERSION: &str = "0.1.0 (rattle-kit-13f logic dac8208d650f15bf)";

pub(crate) const SMMUQ: &str = "\
A script is read from standard input, and is answered on standard output.
'smmuq help SUBCOMMAND' lists the lines, answers and labels of a subcommand.

Example:
    smmuq replay < examples/first-run.script

Exit status:
    0  served to its end; each command is legal
    1  a fault ended it, or a command isn't legal
    2  the command line isn't understood
    3  out of memory; the last line is 'no memory'
    4  a read or a write failed

docs/FORMATS.md has all of it at length.";

pub(crate) const REPLAY: &str = "\
Reads lines from standard input and writes their answers to standard output,
each as soon as its line was read. A line that is at fault ends the script.

Example:
    smmuq replay < examples/first-run.script

Lines, each with the words that its answers begin with:
    ring LOG2 SENDERS MAXBATCHES CAPACITY   'ring size'
    fill TAG VALUE                          'filled', 'replaced'
    evict TAG                               'evicted', 'absent'
    lookup TAG                              'found', 'absent'
    send S HEX ..                           'sent'
    bare S HEX ..                           'sent'; without a CMD_SYNC
    inval S VMID ASID PAGE PAGES            'sent'; pages from PAGE on
    detach S SID                            'sent'; a stream's entries
    open S HEX ..                           'opened'; as send, not written
    openbare S HEX ..                       'opened'; as bare, not written
    publish S                               'published'; what is open
    step                                    the answers below
    step COUNT                              so many steps, 1 to 1000000
    ack GERRORN retry                       'acknowledged'
    ack GERRORN replace                     'acknowledged'; by a CMD_SYNC
    done S                                  'done'; the last completed
    look S                                  'control'; PROD and CONS
    close S                                 'closed'; nothing more is sent
    dump                                    'prod' to 'end'; entries, counts
    # ..                                    none, as of an empty line

S is a sender, from 0. HEX is 32 hexadecimal digits, the 16 bytes of a command
as they lie in the queue. A number is decimal, or 0x and hexadecimal digits.

TAG is a block of 2^SPAN pages from PAGE on, or a configuration:
    ste SID
    cd SID SSID
    s1 VMID ASID PAGE SPAN    g for ASID: global
    s2 VMID PAGE SPAN
    el2 ASID PAGE SPAN        g for ASID: global
    atc SID SSID PAGE SPAN    - for SSID: none

A step answers 'applied', 'replaced', 'stopped' (at an illegal command), 'still
stopped', 'empty', 'drained' (empty and closed), 'unwritten' (reserved, and not
handed over yet) or 'exhausted'.

Refusals, 'refused' and a label. The script goes on:
    B1  more than 63 commands
    B2  a CMD_SYNC among the commands
    B3  no page
    B4  pages past the last one
    B5  no command
    Q1  the ring is closed
    Q2  the ring has too little room
    Q4  the batch is longer than the ring
    Q5  the sender has no batch left
    C1  the caches are full
    C2  the block isn't well formed
    C3  out of memory for a new tag
    G1  no error is active
    G2  GERRORN isn't that of GERROR

Illegal commands, at which a step stops:
    ILL1  unknown opcode
    ILL2  a Secure stream
    ILL3  a reserved completion signal
    ILL4  an oversized span

Faults, 'line N: ' and one of these, which end the script:
    long line        more than 4096 bytes
    bad line         a word that can't be read, or a wrong number of words
    no ring          a line ahead of the ring's
    second ring      a ring line again
    no sender        a sender that the ring doesn't have
    sender open      its reservation isn't published
    sender not open  there is nothing to publish
    N1  LOG2 isn't 1 to 19
    N2  SENDERS isn't 1 to 256
    N3  MAXBATCHES is 0
    C4  CAPACITY isn't 1 to 65536";

pub(crate) const SCHEDULE: &str = "\
Reads lines from standard input and writes their answers to standard output,
each as soon as its line was read. A line that is at fault ends the script.

Example:
    smmuq schedule < examples/two-laps.schedule

Lines, each one atomic step of a ring, with the words that its answers begin with:
    ring LOG2 SENDERS     'ring size'; no step
    look S                'control'; loads the control word
    look c                'control'; the consumer does
    reserve S HEX ..      'reserved', 'lost'; exchanges what was looked at
    bare S HEX ..         'reserved', 'lost'; without a CMD_SYNC
    write S SLOT HALF     'written'; stores a word of a command
    flip S SLOT           'flipped'; hands a slot over
    flip S SLOT COUNT     'flipped'; hands over so many in a row
    test SLOT             'ready', 'not ready'; loads the head's flags
    test SLOT COUNT       'ready', 'not ready'; looks at so many at most
    read SLOT HALF        'word'; loads a word of a command
    advance               'advanced'; takes a command
    advance COUNT         'advanced'; takes so many
    close S               'closed'; nothing more is reserved
    ack S K               'acknowledged'; stores K in the completion cell
    ask S                 'done'; loads the completion cell
    # ..                  none, as of an empty line

S is a sender, from 0; SLOT a place in the ring, from 0; HALF 0 (lo) or 1 (hi);
COUNT 1 to 64. HEX is 32 hexadecimal digits, the 16 bytes of a command as they
lie in the queue. A number is decimal, or 0x and hexadecimal digits.

Faults, 'line N: ' and one of these, which end the script:
    long line    more than 4096 bytes
    bad line     a word that can't be read, or a wrong number of words
    no ring      a line ahead of the ring's
    second ring  a ring line again
    N1   LOG2 isn't 1 to 19
    N2   SENDERS isn't 1 to 256
    F8   no such sender, slot or half
    F10  a reservation is open, or no batch left
    F11  no command, too many, or a CMD_SYNC
    F9   not looked, closed, or no room
    F2   the slot isn't reserved
    F1   another sender reserved the slot
    F3   the slot is flipped
    F5   not the head's slot, or not tested
    F6   nothing found, or not so many
    F4   a half isn't written, or isn't read
    F7   out of order, or not taken yet";

pub(crate) const DECODE: &str = "\
Reads no input, and writes one line to standard output: the command, or what is
illegal in it.

Example:
    smmuq decode 12302000010002000004010000000000

HEX is 32 hexadecimal digits, the 16 bytes of a command as they lie in the
queue. What is no command is 'bad hex', 'bad length' and the number of bytes, or
'illegal' and a label, with exit status 1:
    ILL1  unknown opcode
    ILL2  a Secure stream
    ILL3  a reserved completion signal
    ILL4  an oversized span";

pub(crate) const STRESS: &str = "\
Reads no input. Runs each sender and the engine on a thread of its own, all at
the same time on one ring, then sends and takes what is left, and writes totals
to standard output, which are the same for every schedule.

A turn of a sender is one try to reserve a batch, which may be refused; a turn of
the engine is a step of at most 64 commands. A thread stops when its turns are
used up, or its batches sent.

Example:
    smmuq stress --log2 4 --senders 4 --batches 1000 --turns 100000

Lines: 'senders', 'batches', 'commands', 'syncs', 'applied', 'replaced',
'removed', 'entries', 'left' and 'closed', and for each sender 'sender K batches
B done D'. With exit status 1: 'unfinished', where the run didn't come to its end.";

pub(crate) const WORDS: &str = "\
Reads lines from standard input, and writes a line for each to standard output,
as soon as it was read: the command, what is illegal in it, or what is bad. A
line is one word of 32 hexadecimal digits, or two words of 0x and at most 16
hexadecimal digits, lo and then hi. A line without words, or whose first begins
with #, is skipped.

With --log the lines are a kernel's log. Two in a row whose last word is 0x and
16 hexadecimal digits are a command, lo and then hi; one alone is a 'bad line'.
All others are skipped.

With --hex each line is one of a hex dump, an address and 16 bytes, as xxd,
hexdump -C -v, or x/gx and x/wx of gdb print it.

Example:
    smmuq words < WORDS
    dmesg | smmuq words --log

What is no command is 'bad hex', 'bad length' and the number of bytes, 'bad line',
or 'illegal', a label and what it means. One such line makes exit status 1:
    ILL1  unknown opcode
    ILL2  a Secure stream
    ILL3  a reserved completion signal
    ILL4  an oversized span";

pub(crate) const ENCODE: &str = "\
Reads lines from standard input, and writes a line for each to standard output,
as soon as it was read: the 32 hexadecimal digits of the command whose text it
is, the 16 bytes as they lie in the queue. A line without words, or whose first
begins with #, is skipped.

Example:
    echo 'TLBI_NH_ASID vmid=1 asid=2' | smmuq encode

A line is a command as 'smmuq decode' writes it: its name, and its fields in any
order, each once, decimal or 0x and hexadecimal. Those of a range, tg, num and
scale, are given all or none. What is no command is 'bad command', with exit
status 1.";

pub(crate) const TRACE: &str = "\
Reads the log of a device model from standard input, and writes what is right for
each line to standard output, as soon as it was read.

Example:
    smmuq trace < examples/model.log

Lines, each with the words that its answers begin with:
    walk N                'walking'; walk N begins
    fill N TAG VALUE      'filled', or 'overtaken' if a command that covers TAG
                          was taken since walk N began, 'too old' if more than
                          64 invalidations were
    use N TAG             'used value=', 'not held'; access N begins
    end N                 'ended'; access N is over
    command HEX           'applied', 'stopped', 'replaced', 'still stopped',
                          'exhausted', or 'waiting K' for a CMD_SYNC that has
                          to wait for K accesses: it comes again
    ack GERRORN retry     'acknowledged'
    ack GERRORN replace   'acknowledged'; by a CMD_SYNC
    did filled            'right', for what the model did with the line before;
    did overtaken         'unjudged' behind a line with nothing to compare
    did used value=V
    did missed
    did completed
    did waited
    # ...                 a comment

A fill and an acknowledgement may be 'refused', as by replay.

A line ends the run as 'line N: NAME', with exit status 1, where NAME is
    wrong: W is right     the model did something else than W
    bad line              it is none of these lines
    long line             it has more than 4096 bytes
    no walk               walk N isn't among the last 1024
    access open           access N isn't over
    no access             access N hasn't begun, or is over
    too many accesses     1024 aren't over
    other command         after a stop, not the one at which it stopped";

pub(crate) const RANGE: &str = "\
Reads no input. Writes the commands that invalidate these bytes to standard output,
a line for each: its 32 hexadecimal digits, the 16 bytes as they lie in the queue,
and its text as 'smmuq decode' writes it. TTL, the level, is in the digits alone.

The commands are for stage 1 of a virtual machine (--vmid, and --asid for one
address space of it), for the hypervisor (--el2, and --asid), or for stage 2 of a
virtual machine (--stage2 --vmid), whose address is an intermediate physical one.
The SMMU has every stage and granule, and no page is global. Where more commands
by address than the limit were needed, there is one for the whole space.

Example:
    smmuq range --vmid 1 --asid 2 --address 0x100000 --length 0x8000 --leaf

Numbers are decimal without a leading 0, or hexadecimal behind 0x.

Refused, with exit status 1 and one of these lines alone:
    bad vmid        it is no number of 16 bits
    bad asid        it is no number of 16 bits
    bad address     it is no number of 64 bits
    bad length      it is no number of 64 bits
    bad granule     it isn't 4K, 16K or 64K
    past the end    bytes past the last: of 2^64, or of 2^52 at stage 2";

pub(crate) const CONVERT: &str = "\
Reads a guest's commands from standard input, in lines as 'smmuq words' reads them,
and writes a line for each to standard output, as soon as it was read: what a
hypervisor sends to the host's queue for it, or what it is instead.

Each --stream says that a stream of the guest is this one of the host; one that is
several of the host is given for each. With ',ats' its endpoint caches translations.
The host's SMMU has all that no option takes from it.

Example:
    smmuq convert --vmid 33 --stream 3=0x103,ats --no-range < WORDS

Lines begin with:
    HEX             the 32 hexadecimal digits of the host's command and its text;
                    more behind '; '
    nothing         it means nothing on the host
    sync            a CMD_SYNC: complete when all before it is
    configure       the hypervisor writes these streams' entries first, and then
                    sends this; or 'nothing', if the guest has none of them
    illegal         a label and what it means; the guest's queue stops there
    refused         it's of EL2, of stage 2 or an answer: the guest's queue stops
    bad line        no command

The last three make exit status 1. Numbers are decimal without a leading 0, or
hexadecimal behind 0x.

Refused, with exit status 1 and one of these lines alone, before anything is read:
    bad vmid        it is no VMID of the host
    bad stream      it isn't GUEST=HOST or GUEST=HOST,ats
    refused V1      the host has no such stream
    refused V2      this stream of the host was given before
    refused V3      the guest's stream is 63 of the host already";

pub(crate) const IMAGE: &str = "\
Reads the memory of a queue from standard input, 16 bytes a slot in the order of
the slots. Writes five lines to standard output, size, prod, cons, err and
waiting, and then a line for each command from CONS to PROD. With GERROR and
GERRORN a last line says what holds the queue up.

With --hex the input is a hex dump, of which each line has an address and 16
bytes, as xxd, hexdump -C -v, or x/gx and x/wx of gdb print it.

Example:
    smmuq image --prod 0x98 --cons 0x85 < QUEUE

Registers are decimal without a leading 0, or hexadecimal behind 0x.

Refused, with exit status 1 and one of these lines alone:
    bad log2        L isn't 1 to 19
    bad prod        a bit above the wrap bit, or no number
    bad cons        a bit above the wrap bit but ERR's, or no number
    bad gerror      no number
    bad gerrorn     no number
    bad line N      line N of a hex dump can't be read, or doesn't go on
    bad distance N  PROD is further ahead than the queue is long
    bad length N    so many bytes aren't 16 a slot";
