//! The texts of help.

pub(crate) const STATUSES: &str = "Exit status:
  0  good
  1  the source, the image, the commands, the schedule, the group or the store were refused
  2  a device failed, or memory ran out
  3  these words are no call of the program
  4  of plc ask: a command was refused by the controller
  5  of plc ask: a line was no command of a console";

/// A text of help, and then the faults that the text of a program may have.
macro_rules! with_source_faults {
    ($text:literal) => {
        concat!(
            $text,
            "
A fault is one line on standard error. Of the program's text, at line L and column C, counted from
1, or at instruction I, counted from 0:
  plc: read N at L:C         1 a byte that may not stand there, 2 no word, 3 a literal out of range
                             or ill formed, 4 a comment without an end, 5 a word that can't stand
                             there, or a line that ends too early, 6 a name or the text is too long
  plc: decl N at L:C         1 a name that was declared before, 2 no such type, 3 a name that isn't
                             declared, 4 no location, or one of another type, 5 two names at one
                             location, 6 an initial value that doesn't fit, or any on an input or an
                             instance, 7 a word of the language as a name or a label, 8 too many
                             variables, instances or instructions
  plc: asm N at I            1 types that differ, 2 no current result, 3 a jump to no label, 4 a
                             label that stands twice, 5 a parenthesis that isn't open, or is still
                             open, 6 more than 16 open, 7 a write to what can't be written, 8 a field
                             that the block hasn't, that is given twice or the wrong way round
Of files and the machine:
  plc: device read PATH      the file can't be read
  plc: device output         standard output is closed or full
  plc: device                another file or stream failed
  plc: memory                memory ran out"
        )
    };
}

pub(crate) const COMMANDS: &str = with_source_faults!(
    "COMMANDS is a JSON array. Each command in it is answered by one line:
  {\"scan\":{\"ix\":[0],\"iw\":[[3,-2]],\"moment\":0}}
                             runs the program once on these inputs: ix has the numbers of the TRUE
                             bits (%IXb.n is bit 8b+n), iw pairs of a word's number and value, moment
                             is in milliseconds; all other bits are FALSE, all other words 0
  {\"break\":2}                holds each later scan before instruction 2, counted from 0
  {\"clear\":2}                takes that breakpoint away
  \"step\"                     performs one instruction of the held scan
  \"continue\"                 goes on with the held scan
  \"cr\"                       tells the current result of the held or stopped scan
  \"reset\"                    starts cold again; forces, breakpoints, moment and count stay
  \"warm\"                     starts warm: the same, but what is declared RETAIN stays too
  {\"force\":[\"%IX0.0\",true]}  lays a value over a location of %I or %Q: a truth value over a bit,
                             a number over a word
  {\"unforce\":\"%IX0.0\"}       takes it off again
  {\"read\":\"T1.ET\"}           tells the value of a location, a variable or an instance's field
  {\"change\":\"494C50..\"}      goes on with another program, whose image has these bytes, two digits
                             each; variables without a location go on by name and type, instances
                             by name and kind
  {\"long_change\":\"49..\"}   the same, where the image has more than 32768 bytes, up to 1048576

Answers:
  outputs S ..               scan number S is done: its TRUE bits as QXb.n, its words that aren't 0
                             as QWk=v
  held P                     the scan is held before instruction P
  stopped WHY P              the scan stopped at instruction P: overflow, zerodivisor or budget;
                             of a text of units each P has its place behind it, ': X, line L', as
                             'plc where' has it, unless a command is a change
  value V                    a value, as TRUE, INT#5, DINT#5, LINT#5, T#5ms or REAL#0.5
  done
  refused N                  1 no scan is held, 2 no such instruction, 3 no such name or it can't be
                             forced, 4 a value of another type, 5 there is no current result,
                             6 no image, 7 a scan is held or stopped: no change

Where COMMANDS is no such array, 'plc: commands' is reported, and nothing has run. Before it a line
says 'no command N', counted from 1, 'no list', or 'no JSON at L:C'.
"
);

pub(crate) const ASSEMBLY: &str = with_source_faults!(
    "Prints one line, 'words N': how many words the image has, those of arguments too.
The file IMAGE is made, or written over, only where the source is good; 'plc: device write IMAGE' tells
that it can't be.
"
);

pub(crate) const LISTING: &str =
    "The listing is the image's program as text, in one spelling: VAR, or VAR_GLOBAL where it has REAL or
another word that only such a text has, a line for each variable and each instance, END_VAR, a line for
each instruction. It assembles to the same image.

A fault is one line on standard error; POS is a byte of the image, counted from 0:
  plc: load N                1 the image is cut short, 2 it doesn't begin as one, 3 it's of another
                             version, or of a later one than its program needs, 4 it counts more than
                             its limits, 8 bytes stand after its end
  plc: load N at POS         5 a value that may not stand there, 6 a type that doesn't fit, 7 a jump
                             to no label
  plc: device read PATH      the file can't be read
  plc: device output         standard output is closed or full
  plc: memory                memory ran out";

pub(crate) const NAMES: &str = with_source_faults!(
    "Prints a table of comma-separated values: a line of heads, and a line for each variable with its name,
its type, its place, and the table of Modbus (coil, discrete input, holding register, input register)
with the address there.
"
);

pub(crate) const DIFFERENCE: &str = with_source_faults!(
    "Each of OLD and NEW is the text of a program; or where one is had from, as with 'plc fetch': a port, an
address, a socket, or the directory of a store. Prints 'same program' where both have the same declarations
and instructions, whatever comments and blanks their texts have, else 'another program'; then a line for
each variable and instance of NEW, and for each of OLD that ends:
  goes on   it keeps its value: OLD has one of that name and type (an instance: of that kind)
  begins    it starts at its initial value
  at place  it lies at a place, which keeps its value
  ends      OLD's alone: its value is lost
So a plant that runs OLD goes on with NEW after 'plc ask --change': 'plc diff 5021 SOURCE' tells it before.
OLD is judged first; before a fault of a text the line 'in PATH' says of which one. What is told of a
console or a store that gives no program, 'plc fetch --help' has.
"
);

pub(crate) const PLACES: &str = with_source_faults!(
    "A position counts the instructions of the program from 0, as breakpoints, held scans and stops have it; in a text
of units, whose calls are replaced by what they call, those of all instances. Prints a line for each position:
  P L:C                   the instruction at position P stands at line L, column C
  P L:C X                 it stands there in the block of which X is an instance, by its full name
With AT the lines are those of the instructions at that line, or at that line and column: one for each instance or
call. Each P of them is one for {\"break\":P}.

'plc: no instruction at AT' is told where none stands there, 'plc: no position P' where the program has fewer, and
'plc: the source is an image' of an image, of which 'plc list' prints the text.
"
);

pub(crate) const SCHEDULE: &str = with_source_faults!(
    "SCHEDULE is a JSON array of events. Replicas are numbered 0 to 2f, replica 0 is the first primary; clients are
0 to 15; messages are numbered from 0 as they are sent:
  {\"submit\":[0,COMMAND]}  client 0 sends its next request, one of the commands of 'plc run', to the
                          primary that it knows; then it waits for the answer
  {\"retry\":0}             client 0 sends the request that it waits for to all replicas
  {\"clientrestart\":0}     client 0 starts again: it waits for nothing, and its numbers go on above all
                          earlier ones
  {\"deliver\":4}           message 4 reaches its receiver; it may come again, or never
  {\"resend\":1}            replica 1 sends again what may have been lost
  {\"timeout\":1}           replica 1 has heard nothing of its primary for too long: it begins a view change
  {\"crash\":1}             replica 1 goes down and keeps its stored view alone
  {\"restart\":[1,7]}       replica 1 comes up with a nonce that it never had, and recovers from the others
  {\"storefail\":[1,\"old\"]} the next save of replica 1 fails and takes it down; its store keeps the old
                          view, or with \"new\" the new one

The report is one line of JSON:
  lengths                 after each event, how many requests are committed
  order                   those requests, as [client, number]
  releases                the answers that reached their clients, as [event, client, number, answer]
  sent                    how many messages were sent

Where SCHEDULE is no such array, or a name in it is none of the program's, 'plc: schedule' is
reported, and nothing has run. Before it a line says 'no event I', counted from 0, 'no list', or
'no JSON at L:C'. Where event I, counted from 0, can't take place, 'plc: schedule I R' is: 1 its client or
replica is out of range, 2 the message is not yet sent, 3 the replica had the nonce before, 4 the client
submits while it waits, or retries while it doesn't, 5 the replica is up, 6 the client's numbers are used
up.

With --group the machines of GROUP run SOURCE by virtual time, and no SCHEDULE is given. What comes by chance
goes by the seed, so a run is the same each time. Clients write the inputs that SOURCE names and read outputs,
an operator forces, unforces and resets; each scan, each release and each read is held against what one
controller does. The group begins anew by itself, whatever its cold_start says. Faults come for some seconds,
then none until all is well, and again. Their kinds, of which more than one may be given:
  none, all               no kind, as without --faults; each of these
  crash                   a process is killed, or its machine loses its power, and starts again
  power                   most machines, or all, lose their power at once
  pause, stop             a machine stands still for a while; an operator stops one and starts it again
  loss, delay, reorder    what goes between machines is lost and sent again, takes longer, or now more time
                          and now less
  cut, one-way, isolate   nothing goes between two machines, or not back; from one to another; to and from one
  disk-full, disk-slow    the disk of a machine is full, or slow, for a while
  disk-read-only          it takes no write for some seconds
  disk-lost               beside power: where all lose it, a machine may get an empty disk
With --trace a line is printed for each thing that happens: its step, microseconds since the beginning, the
machine, what it is, and a number, as a view. At the end a line says what was seen:
  seed 7 ran 3600000 ms in 5716487 steps: 3 machines, 35998 scans, 35998 releases as the table says,
  0 faults, 0 takeovers within 0 ms, 0 cold starts within 0 ms, epoch 1
The first thing that is otherwise ends the run: 'plc: seed 7 step 81234 ' is reported with 'two histories',
'unseen', 'inputs fell back', 'moment fell back', 'moment jumped', 'other output', 'read went back', 'slow
takeover', 'no outputs', 'not normal', 'hangs', 'store refused' or 'slow cold start', and the status is 1.
The same words with --until 81234 --trace show what came before.
"
);

pub(crate) const SERVING: &str = with_source_faults!(
    "Takes connections of Modbus TCP on 127.0.0.1, and says so by the line 'serving on 127.0.0.1:P' on
standard error. Each period the 2F+1 replicas scan the inputs that clients wrote, until it's
interrupted; with --scans N it ends after N scans, and prints 'scans N'. Up to 16 clients are served
at once; a connection beyond is closed. So is one whose client has no whole request for S seconds, or
doesn't take its replies within that time. With --stale MS outputs aren't shown that were released
longer ago, or never: functions 2 and 4 answer exception 4 then.
With --modbus-allow LIST only those clients are served whose address is in LIST, which has addresses and
networks of IPv4 with commas between them, as 10.0.0.5,10.1.0.0/16, at most 32; any other connection is
closed unanswered. Those in the LIST of --modbus-read-only only read: each function that writes answers
exception 1. So it does to all who come to the port of --read-port, which serves 16 clients more.
Bits are numbered 0 to 511 (%IXb.n is 8b+n), registers 0 to 63:
  functions 1, 5, 15         read and write the bits of %I
  functions 3, 6, 16         read and write its words
  function 22                sets the bits of one of its words by two masks
  function 23                writes some of its words, and then reads some
  functions 2, 4             read the bits and the words of %Q, as the last scan released them

Each replica keeps its view in a file of DIR, replica-0 to replica-2F. With --store given 2F+1 times
each has it in a directory of its own, in their order. DIR is made where it isn't there. Where it
holds such a file, 'plc: store used DIR' is reported, 'plc: store open to all DIR' where all may write to
it, 'plc: store twice DIR' where it's given twice, and 'plc: store' where another start has it by a lock on
the file 'lock', or it's another user's; nothing has started then.

What changes is reported by a line on standard error, and the status stays:
  replica I down             replica I has not been normal for a second
  replica I normal           it's normal again
  replica I store            its file couldn't be read or written: it's down. A save is tried again
                             after 1 s, then after 2 s, up to each minute, and it keeps what it knows;
                             after a start that failed it's started anew after 5 s, then after 10 s,
                             up to each minute, until it's normal again
  replica I starts           it's started anew
  replica I crashed          it was crashed and restarted, as --crash asks for
  held P                     a scan is held before instruction P; outputs stay as they were released last
  stopped WHY P              the program stopped at instruction P: overflow, zerodivisor or budget; all
                             outputs are FALSE or 0 from then on, until a reset or a warm start
  goes on                    a scan was neither held nor stopped, after one that was
  no page port P, no console port P, no console socket
                             it isn't to be had: it's tried again after 1 s, then after 2 s, up to each
                             minute, and told without 'no' once it's had; all else goes on
  console begins             an operator has the console
  console ends               he has gone
  console taken over         he has it no more: another one has come
  console refused            a session was ended that sent lines of HTTP, or three in a row that are no
                             command, or not the key
  console WORD N             a command of his was done that changes something: break and clear have
                             their instruction, force and unforce a number (%IXb.n is 8b+n, %IWk
                             1024+k, %QXb.n 4096+8b+n, %QWk 5120+k)
  N lines lost               so many found no room, since nobody read them in time
Where fewer than F+1 replicas have been normal for a minute it ends with 'plc: device no majority'. Of
what isn't to be had for a start, or failed, the line is one of these:
  plc: device port P         the port is in use
  plc: device store I        the directory of replica I, or its file there
  plc: device report         the file of --report
  plc: device no thread      nor, with 'no connection', a connection between replicas

With --status P what shows is served at port P of 127.0.0.1 over HTTP/1.1, and changes nothing: a page
for browsers at /, figures for Prometheus at /metrics, JSON at /state. With --status ADDR:P it's at that
address of this machine, for whoever reaches it. Up to 16 connections are served at once, each until it
has sent no request for 30 seconds.

With --console P an operator's console is served at port P of 127.0.0.1, with --console-socket PATH at
a socket that its owner alone can reach, as every user can reach a port. Each line is one of the commands
of 'plc run' in JSON, but no scan, and is answered by its line, or a question, which changes nothing; any
other line is answered by 'plc: commands', and the third of those in a row, or one of HTTP, as a browser
sends it, ends the session. The questions:
  \"forces\"                   tells what lies over which location
  \"breaks\"                   tells the instructions before which scans are held
  \"program\"                  tells how many bytes the image in force has, and their SHA-256
  \"image\"                    tells these bytes, two digits each; 'plc fetch' asks for it
  \"status\"                   tells how many scans there were, how many replicas are normal, and what
                             the last scan was held or stopped by
  \"values\"                   tells each variable and each field of an instance, and what is forced, as a
                             line of JSON: all of one scan, outputs as its end would release them
  {\"watch\":[\"T1.ET\",..]}     tells the same of the locations, variables and fields of these names, or
                             'plc: unknown name'
Four clients are served at once. For anything but \"status\", \"values\" and a watch one of them takes the
console over once a command that waits is answered, and whoever had it is told 'plc: taken over'. With
--console-key FILE each client sends the first line of FILE first, 8 to 128 visible characters, and is
told 'done', or a second later 'plc: key'; nobody but its owner and its group may read FILE. At a
breakpoint all outputs stay as they are until the scan goes on.

The report is one line of JSON, written before 'scans N', beside its file, which it replaces at a good
end; into a device, a pipe or a link that is there it's written straight:
  crashes                    how often a replica was crashed by --crash
  scans                      how many scans were released
  sessions                   how many clients were served
  writes                     how many of their writes were taken

With --group GROUP one machine of a group is served, in a process of its own: DIR is its store, as
'plc format' made it with the program, and GROUP the file of the group, which has all other settings.
It goes on until it's ended from outside, or something fails, and then it's started anew by the same
words. One machine drives at a time: its port for Modbus answers, and the others' are closed. Of the
lines above it reports those of scans and of a console, and of machines, counted from 0:
  driving view V             this machine drives from now on
  standing by view V         another one does
  stale view V               it leads, and released nothing for as long as outputs are shown
  no port view V             it leads, and its port isn't to be had
  no trace                   the file of --trace can't be written, and isn't until another start
  machine J joined           there's a connection with machine J
  machine J lost             there's none any more
  machine J refused: WHY     it's no machine of this group as it's here: another version, group, epoch or
                             program, own party, no member, or fewer starts
  replica normal view V      the replica of this machine takes part
  replica not normal         it learns what it missed, or the group has no majority; after a minute that's
                             reported once more
With --trace FILE, for trials, a line goes to the end of FILE for each start, 'machine I start N', and
for each release: the epoch, the place of its scan in the list of the group's commands, from 0, the
number of the scan's request, the scan's moment, how many lines were left out before this one, since
FILE took them too slowly, and the outputs, as 'plc run' prints them. A dash stands for a place or a
moment that the machine's own replica didn't have. FILE is refused where it's GROUP, lies in DIR, is
a link or no file of bytes, or has something else than a trace.
Where GROUP or DIR is refused, it's reported as by 'plc format', and nothing has started. Further:
  plc: store missing         nothing was formatted in DIR
  plc: store of another group  GROUP isn't the file with which DIR was formatted
  plc: store of another machine  GROUP has fewer machines
  plc: store lost its view   the replica's file in DIR is gone
  plc: store has a view and was not started  DIR is of two machines
"
);

pub(crate) const ASKING: &str = with_source_faults!(
    "CONSOLE says where the console is: a port of 127.0.0.1, as 'plc serve --console P' has it; an address
with its port, as 'console' of a group's file; or a path with a '/', of a socket on this machine.

COMMANDS is a JSON array of the commands of 'plc run', without scans, which are the driver's, and of
the questions of a console ('plc serve --help'); - is standard input. Each is submitted to the group
of 'plc serve' once the one before it is answered, and its answer is a line, as 'plc run' prints it,
which is printed when it comes. A scan is answered 'plc: commands'. Another client of the console gives
way to this one.

With --change SOURCE one command is sent: the change to the program of a text. Where the answer is
'done', the console looks names up in that program from then on.

With --console-key FILE the first line of FILE is sent first, for a console that asks for a key.

The status is 0 where each command was done or answered what it asked for, 4 where one was answered
'refused N', and 5 where an answer began with 'plc: '. Where the console can't be asked:
  plc: commands              COMMANDS is no list of commands; nothing was sent. Before it a line says
                             'no command N', counted from 1, 'no list', or 'no JSON at L:C'
  plc: change of N bytes     the image of SOURCE has more than 1048576 bytes; nothing was sent
  plc: device port P         nobody serves a console at the port
  plc: device socket PATH    nobody serves a console at the socket
  plc: device no answer      another client took it over, or it ended, or gave no answer for S
                             seconds, before each was answered
"
);

pub(crate) const FETCHING: &str = with_source_faults!(
    "FROM says where the program is:
  P                          a console at this port of 127.0.0.1 ('plc serve --console P')
  ADDR:P                     a console at this address, as 'console' of a group's file
  DIR                        the store of a machine, in this directory
  PATH                       a console at this socket; of any other file the text of a program
Of a console it's the program in force, also after a change; of a store the one to which it was changed in
its epoch, or the one with which that began.

FILE is made, with the listing as 'plc list' prints it, which assembles to the same image; comments and units
are no part of an image. With --image it's the image.
A console that is asked is taken over: another client of it is told so. With --console-key FILE the first
line of that FILE is sent first, for a console that asks for a key.

Nothing is written where the status isn't 0. It's 5, and the line is the console's, where an answer began with
'plc: '. Further:
  plc: file there FILE       FILE is there: it's never written over
  plc: device port P         nobody serves a console at the port
  plc: device socket PATH    nobody serves a console at the socket
  plc: device no answer      another client took it over, or it ended, or gave no answer for S seconds
  plc: device write FILE     FILE can't be made
  plc: load N                what the console answered is no image
  plc: store WHY             as with 'plc show'
"
);

pub(crate) const FIELD: &str = "FIELD is a text in TOML; times are in milliseconds, 1 to 60000:
  controller = \"127.0.0.1:5020\"   where the controller serves Modbus; or a list, tried in turn
  cycle = 20                      from cycle to cycle
  fresh = 500                     its outputs count as known for so long after it answered, at
                                  least two cycles
  scan_count = \"%QW63\"           and while this word of %Q changes, if one is named
These of the controller may be left out:
  controller_timeout = 40         an answer is late after so long: two cycles, and at least 40
  scan = 100                      a scan takes so long, where no word counts them
  beat = \"%IW62\"                 a word that each cycle counts up
  ready = \"%IX63.7\"              TRUE once the inputs of each device were handed over
  control = \"/run/plc/f.sock\"    the socket by which --stop asks it to end
Each device:
  [[device]]
  name = \"coupler\"
  address = \"192.168.1.20:502\"
  unit = 1                        1 to 255; a device by itself is 255
  timeout = 20                    a reply is late after so long, at most its cycle
  retries = 2                     so often it's asked again then; it may be left out
  every = 1                       it has a round every so many cycles; it may be left out
  alive = \"%IX63.0\"              TRUE while the device answers; it may be left out
  on_loss = \"zero\"               its inputs while it doesn't: \"zero\", or \"hold\"
  exchange = false                whether registers are written and read by one request (23);
                                  it may be left out
  refresh = 10                    seconds: so long after all was written, all is written again;
                                  only where a write has write = \"changes\"
  [[device.read]]                 its readings fill places side by side, bits or words
  table = \"discrete_inputs\"      or coils, holding_registers, input_registers
  from = 0                        the first cell of the device, counted from 0
  count = 8
  as = \"dint\"                     two registers are a value of 32 bits, a DINT or, with \"real\", a
                                  REAL, and two words here, of which the high one comes first, as in
                                  to = \"%ID0\"; it may be left out
  word_order = \"low_first\"        with it: the word that comes first at the device, or \"high_first\"
  to = \"%IX0.0\"
  [[device.write]]
  table = \"coils\"                or holding_registers
  from = \"%QX0.0\"
  count = 4
  as, word_order                  as in [[device.read]]
  to = 0
  write = \"changes\"               it's written only where the device doesn't have it yet; it may be
                                  left out: \"always\"
  on_stop = \"zero\"               what is written once when the controller isn't fresh any more:
                                  \"zero\", or \"hold\", which writes nothing

Each cycle the outputs that the controller released are taken and written to the devices, and their
inputs are read and handed over to it: those of a device whole, by one write, or not at all. Where
there is a new connection to the controller, or a device comes back, it's only read at first: it's
written outputs once two scans were released since its inputs were handed over. Meanwhile outputs
that were taken before count as known for 'fresh', and then on_stop is written. An address of the
controller that fails is left for the next one at once. While the controller is lost and outputs
fell back no device is asked. What changes is reported by a line on standard error:
  NAME found                      it answers; 'controller' is the controller's name
  NAME lost: WHY                  closed, timeout, bad protocol, bad length, another transaction,
                                  another unit, another function, another length, or exception N
  NAME back                       it answers again
  stopped                         on_stop was written, and inputs and alive bits are FALSE
  N lines lost                    nobody read them for too long; it didn't wait
A reply that is late, or comes twice, is left out. A connection to a device that had a fault is made
anew after 100 ms, then 200 ms, up to each 5 s, until its rounds were good for 5 s.

With --status P what shows is served at port P of 127.0.0.1 over HTTP/1.1, as plc serve does it: a page
for browsers at /, figures for Prometheus at /metrics, JSON at /state. With --status ADDR:P it's at that
address. It changes nothing, and no round waits for it.

A fault of FIELD is one line, 'plc: field WHERE KEY: WHAT', and nothing was connected. Of files and
the machine:
  plc: device port P              the port of --status isn't to be had
  plc: device                     a file or a stream failed
  plc: memory                     memory ran out
";

pub(crate) const FORMATTING: &str = with_source_faults!(
    "With --new-group the identity of a new group is drawn, and put into GROUP as its first line. That's done
once; then each machine gets a copy of the file.

With --new-key a key of the group is drawn into FILE, which nobody else may read: a line of 64 hexadecimal
digits. Each machine gets a copy, by a way that keeps it secret, and 'key' in GROUP has its path. By it the
machines know each other, and what goes between them can't be forged. A second line has a key that is heard,
too: so a group changes its key, one machine after the other, in three rounds: the new one as second line,
both lines exchanged, the old one gone.

Without it, the store is made with which a machine of a group begins: the group, the machine's number, a
random number of its own, and the image of the program. DIR is made where it isn't there; where it holds
anything of a store nothing changes. A new machine enters the group's first epoch. With --wait it's one
whose disk was lost: it takes no part until its group begins an epoch that it wasn't in.

With --next-epoch the store in DIR is put into the next epoch by hand, and 'epoch N' is printed. Served
then, it waits for the other machines. Where their group can't go on they follow it: all that was done
since the last cold start is lost. Where a majority of it takes part nobody follows, and they say so. With
SOURCE the epoch begins with that program, with --changed with the one to which it was changed since; else
with the one in the store, which is refused where it was changed. A machine that has entered an epoch of
another program than its store's is given that by the same call, and stays in its epoch.
With --epoch N it's epoch N, which has to be above that of the store, also of one that waits. It's for a
group of which too many disks were lost: the same number at each machine, as the date. The group must not
run, and --forget is wanted. So it is with --next-epoch where a machine of the group drives.

GROUP is the same file on each machine, in TOML. Its keys, and what they are where they're left out:
  name                       1 to 64 visible characters; never left out
  identity                   32 hexadecimal digits, by --new-group; never left out
  budget = 10000             how many instructions a scan may perform, 1 to 1000000
  every = 64                 commands from checkpoint to checkpoint, 1 to 65535
  [[machine]]                three, five or seven times, each with its addresses
  fresh                      milliseconds that outputs are shown, to 86400000: a period and 40; at least
                             a period and 20
  period = 100               milliseconds from scan to scan, 1 to 3600000
  patience = 100             milliseconds without a word of the leading machine, 25 to 60000
  resend                     milliseconds until what may be lost is sent again, 5 to 12000: 20, or a
                             fifth of patience where that's less; never more than that fifth
  idle = 300                 seconds until a silent client is disconnected, 1 to 86400
  cold_start = \"auto\"        or \"by hand\": where all have lost their memory together
  key                        the path of the file of the group's key, from the root; without a key each
                             replica has to be at 127.0.0.1
  insecure = false           true: replicas may be at other addresses without a key
  modbus_allow               [\"10.0.0.5\", \"10.1.0.0/16\"]: addresses and networks of IPv4, at most 32;
                             Modbus clients from elsewhere are closed unanswered
  modbus_read_only           the same of those who only read: each function that writes answers exception 1
  console_key                8 to 128 visible characters that a console asks for first
  console_sockets            a directory: the console of machine I is its socket console-I, at no port
  replica, modbus            of a machine: an address and a port, for the other machines and for Modbus
                             clients
  modbus_read                the same, for clients who only read, if it's wanted; a machine drives only where
                             it has it
  console, status            the same, if they're wanted
Those down to [[machine]] have to be the same at each machine, and stay as long as its store. fresh has to
be the same; it changes while all are stopped. All others may differ, and change at one machine after the
other: period only where fresh is given.

A fault of GROUP or of DIR is one line on standard error. Machines are counted from 0:
  plc: group at L:C          GROUP is no TOML, at line L and column C, counted from 1
  plc: group KEY WHY         unknown: no group has KEY; missing: each has it; refused: its value is
                             none that KEY takes, and why, if that isn't a range from above
  plc: group machine I KEY WHY  the same of machine I; twice: its address stands before it too
  plc: group machine I missing  the group has no machine I
  plc: group identity there  --new-group was done before
  plc: group key there       FILE is there already
  plc: group key open to all  others than its owner and its group may read the key
  plc: group key refused: WHY  it isn't one line of 64 hexadecimal digits, or two with two keys
  plc: group console_key open to all  others than its owner and its group may read GROUP
  plc: store used            DIR holds something of a store
  plc: store taken           another process has DIR
  plc: store open to all     all may write to DIR
  plc: store image too long  the image has 4 GiB or more
  plc: device random         no random bytes are to be had
  plc: device store DIR      DIR can't be read or written: no rights, no space, file gone
Of --next-epoch and --epoch further, beside those of 'plc show':
  plc: store waits for its group  the machine is in no epoch: call it at another one
  plc: store of another group  GROUP isn't the file with which DIR was formatted
  plc: store of a program that was changed: --changed, or give one
  plc: store of a program that was not changed  --changed finds no change
  plc: store without the program to which it was changed: give one
  plc: store has that epoch or a later one  N has to be greater
  plc: store in the last epoch  no number is left
  plc: machine J drives: --forget loses what the group has in memory
  plc: --epoch loses what the group has in memory: --forget
An address that's no loopback is reported, and is no fault:
  ADDRESS: anybody on that network can write here
"
);

pub(crate) const SHOWING: &str =
    "Prints a line for each of these: its format; the machine's number; the identity of its group; the
store's own number; its state; its epoch, and the program with which that begins; the stores of other
machines that it has seen in that epoch; the program of the store, and how many bytes its image has;
whether the program was changed in this epoch. Identity and programs are SHA-256.

With --listing the listing of the store's program is printed, as by 'plc list'; with --changed that of
the program to which it was changed in this epoch.

States:
  entered                    the machine has the epoch before it: it begins as soon as most machines do
  begun                      it takes part in it, or recovers
  waits, waits above         its disk was lost: it waits for an epoch, or for one above this one

A fault is one line on standard error:
  plc: store missing         nothing was formatted in DIR
  plc: store of another format  another version of plc has made it
  plc: store torn            it was cut, or changed, or its mark of a change was
  plc: store of a program that was not changed  --changed finds no change
  plc: device store DIR      DIR can't be read: no rights, file gone
  plc: device                a file or a stream failed
  plc: memory                memory ran out";
