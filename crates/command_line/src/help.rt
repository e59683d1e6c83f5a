//! The text of `--help`: what each command reads, what it prints, how it ends, and an example.

pub const PROGRAM: &str =
    "A datagram switch whose classic BPF programs are replaced while traffic flows";

pub const STATUSES: &str = "\
Results go to standard output. Exit status:
  0  done
  1  refused: `refused CODE` or `refused CODE NUMBER` on standard output
  2  wrong arguments: a message on standard error
  3  failed: one line on standard error:
     failed E1  the input could not be read
     failed E2  results could not be written
     failed E3  memory ran out
     failed E4  a line had no reply
     failed E5  the rules of a switch changed while they were read
     failed J1  a worker's thread could not be started
     failed S1  a socket could not be bound
     failed S2  waiting for the sockets failed

`dswitch help COMMAND` says what a command reads and prints, and gives an example.
`dswitch explain CODE` says what a code means, and what to do.";

pub const FIRST: &str = "Run one program on a packet, replace it, and run the next one";

pub const FIRST_MORE: &str = "\
Reads nothing. Prints one line for each of two versions, `version N value V steps S kept B`:
the program of version N returned V after S instructions, and keeps B bytes of the packet.

Example:
  $ dswitch first
  version 0 value 65535 steps 3 kept 29
  version 1 value 0 steps 1 kept 0";

pub const CHECK: &str = "Check a BPF program, in assembly text or in numbers";

pub const INPUT_FORMAT: &str = "The format of the program: asm, ddd or hex; asm if it is left out";

pub const OUTPUT_FORMAT: &str =
    "The format of the program: asm, ddd, dd or hex; asm if it is left out";

pub const CHECK_MORE: &str = "\
Reads a program from standard input, in the format NAME:
  asm  assembly text; a line feed or `;` ends a line
  ddd  what `tcpdump -ddd` prints: a count, then `code jt jf k` a line, in decimal; a comma ends
       a line too
  hex  a word a line, as sixteen hexadecimal digits: code, jt, jf and k
Prints `accepted N` for a program of N instructions, with status 0. Otherwise prints, with status 1:
  refused C1                    if NAME is none of these, before anything is read
  refused A1 LINE to A5 LINE    if the text is not assembly; lines count from 1
  refused K1 LINE, refused K2   if the text is not in the other format; K2: the count is wrong
  refused V1 to V11 PLACE       if its instructions are no program; places count from 0
                                (V1, V2 and V10 are about the whole program and have no PLACE)

Examples:
  $ echo 'ldb [9]; jeq #17,0,1; ret #65535; ret #0' | dswitch check
  accepted 4
  $ echo '2,128 0 0 0,22 0 0 0' | dswitch check --format ddd
  accepted 2";

pub const COMPILE: &str = "Compile a filter expression to a BPF program";

pub const COMPILE_EXPRESSION: &str = "The filter expression, as one argument";

pub const COMPILE_MORE: &str = "\
Reads no input. Prints the program in the format NAME:
  asm       `charge C`, the most instructions that the program may have, and then assembly text
  ddd, hex  as `check` and `run` read them; these also read the assembly text
  dd        what `tcpdump -dd` prints: initialisers of a `struct sock_filter` in C
Otherwise prints, with status 1:
  refused C1                   if NAME is none of these
  refused P1 PLACE to P5 PLACE if EXPR is no expression; PLACE is a byte, counted from 0
  refused F1                   if it needs more than 16 scratch cells
  refused F2                   if C would be above 4096

Examples:
  $ dswitch compile 'less 28'
  charge 6
  ld len
  jgt #28,1,0
  ret #65535
  ret #0
  $ dswitch compile --format ddd 'less 28'
  4
  128 0 0 0
  37 1 0 28
  6 0 0 65535
  6 0 0 0";

pub const RUN: &str = "Run a BPF program or a filter expression on a packet";

pub const RUN_PACKET: &str =
    "The packet from the IPv4 header on: two hexadecimal digits a byte, at most 65535 bytes";

pub const RUN_EXPRESSION: &str = "Tests this filter expression, and reads no program";

pub const RUN_MORE: &str = "\
Without --expr it reads a program from standard input, as `check` does, and prints
`value V steps S kept B`: the program returned V after S instructions and keeps B bytes, the
lesser of V and the packet's length. With --expr it prints `accept` or `reject`, reads no program,
and ignores --format. Otherwise prints, with status 1:
  refused C1 if HEX is not an even number of digits, refused C3 if it is too long
  the codes of `check` for the program, those of `compile` for the expression

Examples:
  $ echo 'ld len; ret a' | dswitch run --packet 45000014
  value 4 steps 2 kept 4
  $ dswitch run --packet 45000014 --expr 'ip and less 28'
  accept";

pub const EXPLAIN: &str = "Say what a code means, what causes it and what to do";

pub const EXPLAIN_WORDS: &str =
    "The code of a refusal or a failure, alone or in the line that was printed, quoted or not";

pub const EXPLAIN_MORE: &str = "\
Reads no input. Prints what the code means, the usual mistake or cause, and what to do. The words,
joined by single spaces, are one text: a code such as `P1`, with these optional parts of the line
that was printed:
  refused or failed  before the code
  NUMBER             after it
  line NUMBER        at the end
A number is decimal, without leading zeros, and at most 18446744073709551615. For any other text,
such as `g3`, it prints `refused C1`, with status 1.

Examples:
  $ dswitch explain G3
  G3: The group has no member with this number, or at this index.
  Usual mistake: the member left before, or belongs to another group; an index
  counted from 1.
  What to do: `join` the member first, or name the group that it belongs to; an
  index counts from 0.
  $ dswitch explain refused G1 line 2
  G1: There is no group with this key, or at this place.
  Usual mistake: `add` forgotten, or another address or port.
  What to do: `add` the group, or correct the key or the place.";

pub const REPLAY: &str = "Reply to a script of control lines and packets";

pub const REPLAY_SUMMARY: &str =
    "Counts packets by their verdict and refused lines by their code, at the end";

pub const REPLAY_QUIET: &str = "Writes no replies; with --summary only the summary";

pub const REPLAY_MORE: &str = "\
Reads lines from standard input, and prints one line for each before it reads on. A new switch has
no groups, and is version 0. KEY and TO are ADDRESS:PORT, ID is a number, I and P count from 0, and
HEX is an IPv4 packet.
  add KEY, remove KEY                              ok version N
  join KEY ID TO, leave KEY ID                     ok version N
  lock KEY ID                                      ok version N
  selector KEY asm TEXT, selector KEY none         ok version N
  filter KEY ID asm TEXT, filter KEY ID expr TEXT  ok version N
  filter KEY ID none                               ok version N
  packet HEX                                       version N, and the verdict on the packet
  show                                             version N groups G members M charge C
  group I, member KEY I                            version N, and a group or a member
  words KEY selector P, words KEY ID P             version N, and words of a program
  judge HEX                                        version N, and the verdict on the packet
  sweep                                            reclaimed FIRST COUNT
  all N, anew N, and N lines after it              ok version N, one for all of them
  at V CHANGE                                      as CHANGE if V is current, else `refused M1 N`
A refused line prints `refused CODE` or `refused CODE NUMBER`, and changes nothing. The N
lines after `all N`, N up to 65535, are one change; `anew N` begins without groups. If one of them
is refused, the reply ends in `line I`, and nothing is changed.
Without a selector the packet's addresses and ports pick the member. With 2, 4, 8, 16, 32 or 64
members the source port does not count: all packets of a client to a group go to one member.
With --summary these lines come after the replies, if their COUNT is not 0, sorted by their bytes:
  deliver KEY ID COUNT, dropped KEY ID COUNT       packets of this member
  malformed COUNT, nogroup COUNT, nomembers COUNT  packets of no member
  refused CODE COUNT                               lines that were refused
With --quiet no replies are written, and with both options only the summary.

Example:
  $ printf 'add 10.0.0.2:53\\njoin 10.0.0.2:53 1 127.0.0.1:9001\\nshow\\n' | dswitch replay
  ok version 1
  ok version 2
  version 2 groups 1 members 1 charge 10";

pub const FLOOD: &str = "Judge datagrams in worker threads while versions are replaced";

pub const FLOOD_WORKERS: &str = "How many worker threads, from 1 to 64";

pub const FLOOD_DATAGRAMS: &str = "How many datagrams, from 1 to 16777216; 4096 if it is left out";

pub const FLOOD_MORE: &str = "\
Reads nothing. Each worker judges its share of the datagrams, and delivers to an outbox in memory;
meanwhile 64 new versions are tried. Prints how often each outcome came, as one line:
  malformed A nogroup B nomembers C dropped D delivered E sendfailed F receivefailed G

Example:
  $ dswitch flood --workers 4
  malformed 1024 nogroup 1024 nomembers 0 dropped 0 delivered 2048 sendfailed 0 receivefailed 0";

pub const SERVE: &str =
    "Run a switch: judge datagrams from UDP in worker threads, under control lines";

pub const SERVE_FRONT: &str = "The address for datagrams, as ADDRESS:PORT";

pub const SERVE_CONTROL: &str = "The address for control requests, as unix:PATH or ADDRESS:PORT";

pub const SERVE_WORKERS: &str = "How many worker threads judge, from 1 to 64";

pub const SERVE_RULES: &str = "A rules file to begin with; without it there are no groups";

pub const SERVE_LOG: &str =
    "Log each control request that changes something or is not done, on standard error";

pub const SERVE_RECEIVE: &str =
    "Who receives at the front: one thread (queued, the default) or each worker (direct)";

pub const SERVE_RECEIVE_BUFFER: &str =
    "How many bytes of receive buffer each socket at the front asks for, from 1 to 2147483647";

pub const SERVE_MORE: &str = "\
Reads UDP datagrams. The payload of each datagram to FRONT is an IPv4 packet: a worker judges it, and
sends it to the member if it is delivered. Requests come to CONTROL, those of `replay` except
`packet`, and each has one reply. CONTROL takes four more requests:
  totals         the line of totals so far
  totals KEY     the counters of a group: delivered D dropped R nomembers X sendfailed S
  totals KEY ID  the counters of a member: delivered D dropped R sendfailed S bytes B
  stop           ok stop; the workers judge what they were given, and end
CONTROL is the socket file unix:PATH, or a UDP address. Whoever may enter the folder of PATH
controls the switch. A UDP address takes requests from everybody who can send to it: give it one
address, and never 0.0.0.0. Datagrams that look like replies are ignored there.
A new switch has no groups. With --rules version 0 is the configuration of FILE: lines that change
the configuration, beginning without groups. Empty lines, and lines that begin with #, are skipped.
With --receive queued one thread receives at FRONT, and hands the packets to the workers in turn.
With --receive direct each worker receives, from a separate socket at FRONT. The kernel gives all
packets of a sender, an address and port, to one worker. After `ready` they keep their order, and
one sender uses one worker only. A packet to a broadcast or multicast address comes to each worker.
With two workers or more, a program of the same user may share FRONT (SO_REUSEPORT): run the switch
as a separate user. --receive-buffer asks for SO_RCVBUF of these sockets, which the kernel doubles
and caps at net.core.rmem_max; without it they have the system's default.
With port 0 the system picks a port. Prints `ready FRONT CONTROL` with the bound addresses before it
reads, and the line of totals after `stop`, with status 0:
  malformed A nogroup B nomembers C dropped D delivered E sendfailed F receivefailed G
Otherwise prints, with status 1, before a socket is bound:
  refused C1                   if FRONT or CONTROL is no address
  refused CODE line I          if line I of FILE is refused, from 1, or
  refused CODE NUMBER line I   if there is a number; standard error shows the place
  refused C2, refused B1       if FILE is too long, or its configuration too large
Or it fails with status 3: with `failed E1` if FILE cannot be read, and with `failed S1` if a socket
cannot be bound; a line before that says which one, and why.
With --log standard error gets a line `PEER REPLY: REQUEST` for each control request whose reply
begins with `ok `, `refused ` or `failed `. REQUEST is cut at 256 bytes.
Without --control it takes DSWITCH_CONTROL from the environment.

Examples:
  $ dswitch serve --front 127.0.0.1:5300 --control unix:/run/dswitch/control --workers 4
  ready 127.0.0.1:5300 unix:/run/dswitch/control
  $ dswitch serve --front 127.0.0.1:5300 --control 127.0.0.1:5301 --workers 4 --rules rules.txt
  ready 127.0.0.1:5300 127.0.0.1:5301";

pub const TELL: &str = "Send control lines to a running switch and print its replies";

pub const TELL_CONTROL: &str = "The control address of the switch, as unix:PATH or ADDRESS:PORT";

pub const TELL_TIMEOUT: &str =
    "How many seconds each reply may take, from 1 to 3600; 1 if it is left out";

pub const TELL_ALL: &str = "Sends all lines as one change: all of them are done, or none is";

pub const TELL_LINES: &str = "Control lines, each as one argument, or one line as several words";

pub const TELL_MORE: &str = "\
Sends each LINE to the CONTROL of `dswitch serve`, or each line of standard input if there is no
LINE. If no LINE has a space, all of them are one line, unless the first is `show`, `sweep`, `stop`
or `totals`. It skips empty lines and comments (`#`) of standard input. The line `all N` or `anew N`
and the N lines after it are one request. Prints the reply to one request before it sends the next.
Ends with status 0 if no reply is `refused ..` or `failed ..`, else with status 1. It goes on after
such a reply, and standard error has the number of the line and what the code means.
With --all it sends all lines as one change, `all N` and the N lines. If CONTROL is ADDRESS:PORT, a
request has at most 65507 bytes.
Prints `refused C1`, with status 1, if CONTROL is no address, or if --all is given without lines.
Fails with status 3 and `failed E4` if a line has no reply, and sends no later line. The line without
a reply may be done all the same, even later.
Without --control it takes DSWITCH_CONTROL from the environment.

Examples:
  $ export DSWITCH_CONTROL=unix:/run/dswitch/control
  $ dswitch tell add 10.0.0.2:53
  ok version 1
  $ dswitch tell 'leave 10.0.0.2:53 7' show
  refused G3
  line 1: G3: The group has no member with this number, or at this index.
  version 1 groups 1 members 0 charge 6
  $ dswitch tell --all <rules.txt
  ok version 2";

pub const RULES: &str = "Print the rules of a running switch, as a rules file";

pub const RULES_MORE: &str = "\
Reads no input. Prints a rules file that makes the configuration of the switch at CONTROL: a comment
with its version, then for each group `add`, its selector if it has one, and for each member `join`,
its filter if it has one, and `lock` if it is locked. Programs are printed as assembly. Save the
output to a file, and `load` it, or start a switch with it by `serve --rules`.
If the rules change meanwhile, it starts again, at most 16 times.
Prints `refused C1`, with status 1, if CONTROL is no address. Fails with status 3: with `failed E4`
if a line has no reply, and with `failed E5` if the rules changed each time.
Without --control it takes DSWITCH_CONTROL from the environment.

Example:
  $ dswitch rules --control unix:/run/dswitch/control
  # version 2 groups 1 members 1 charge 10
  add 10.0.0.2:53
  join 10.0.0.2:53 1 127.0.0.1:9001";

pub const LOAD: &str = "Replace the rules of a running switch by those of a file";

pub const LOAD_CONTROL: &str =
    "The control address of the switch, as unix:PATH or ADDRESS:PORT; only --check does without it";

pub const LOAD_CHECK: &str = "Only reads FILE, and prints its measures";

pub const LOAD_DIFF: &str = "Only prints the lines that would make the change; sends none of them";

pub const LOAD_FILE: &str = "The rules file";

pub const LOAD_MORE: &str = "\
Reads FILE, a rules file, and makes the configuration of the switch at CONTROL that of FILE, as one
version: `at N anew K` with the K lines of FILE, if the switch has version N. Prints one line:
  version N unchanged   if the switch has these rules; nothing was sent
  version V             if it has them now, as version V
With --diff it changes nothing, and prints the lines that lead from the rules of the switch to those
of FILE. Give them to `tell --all`. With --check it does not ask a switch, ignores --diff, and prints
the measures of FILE:
  groups G members M charge C
If the rules change meanwhile (M1), or readers hold all rows (B2), it tries again, at most 16 times.
Otherwise prints, with status 1:
  refused C1                   if CONTROL is no address, or is not given
  refused CODE line I          if line I of FILE is refused, from 1, or
  refused CODE NUMBER line I   if there is a number; standard error shows the place
  refused C2, refused B1       if FILE is too long, or its configuration too large; C2 also if its
                               lines fit no datagram, and CONTROL is ADDRESS:PORT
  the switch's reply           if it refuses the change; standard error says what its code means
Or it fails with status 3: with `failed E1` if FILE cannot be read, with `failed E4` if a line has no
reply, and with `failed E5` if the rules changed each time. After E4 the change may have been made:
`load` again. Without --control it takes DSWITCH_CONTROL from the environment.

Examples:
  $ dswitch load --control unix:/run/dswitch/control --diff rules.txt
  leave 10.0.0.2:53 1
  $ dswitch load --control unix:/run/dswitch/control rules.txt
  version 3
  $ dswitch load --check rules.txt
  groups 1 members 0 charge 6";

pub const METRICS: &str = "Print the counters of a running switch, as metrics for Prometheus";

pub const METRICS_FRONT: &str =
    "Also what the kernel dropped at this front, as ADDRESS:PORT: on the switch's machine";

pub const METRICS_MORE: &str = "\
Reads no input. Prints Prometheus' text format: the totals, the version and the measures of the
rules, and the counters of each group and of each member of the switch at CONTROL. Prints nothing
before it has read everything. With --front it reads /proc/net/udp, and adds how many datagrams the
kernel dropped at the UDP sockets of that address, and of 0.0.0.0 with that port.
If the rules change meanwhile, it starts again, at most 16 times.
Prints `refused C1`, with status 1, if CONTROL or FRONT is no address. Fails with status 3: with
`failed E1` if /proc/net/udp cannot be read or has no such socket, with `failed E4` if a line has no
reply, and with `failed E5` if the rules changed each time.
Without --control it takes DSWITCH_CONTROL from the environment.

Example:
  $ dswitch metrics --control unix:/run/dswitch/control | grep result=
  dswitch_datagrams_total{result=\"malformed\"} 0
  dswitch_datagrams_total{result=\"nogroup\"} 1
  dswitch_datagrams_total{result=\"nomembers\"} 0
  dswitch_datagrams_total{result=\"dropped\"} 0
  dswitch_datagrams_total{result=\"delivered\"} 2";

pub const TOP: &str = "Watch what each group and each member of a running switch gets";

pub const TOP_INTERVAL: &str =
    "How many seconds from one screen to the next, from 1 to 3600; 1 if it is left out";

pub const TOP_COUNT: &str = "How many screens, from 1 on; no end if it is left out";

pub const TOP_MORE: &str = "\
Reads no input. Reads the counters of the switch at CONTROL at each interval, and prints how much
they grew, so the first screen comes after one interval. On a terminal each screen replaces the one
before; otherwise they follow each other. A screen has two lines of numbers, since the switch began
and per second, a line of names, and a row for each group and each member; an empty line ends it:
  totals malformed A nogroup B nomembers C dropped D delivered E sendfailed F receivefailed G
  rates malformed A nogroup B nomembers C dropped D delivered E sendfailed F receivefailed G
  GROUP MEMBER PACKETS/S BYTES/S DROPPED/S FAILED SHARE
A row has the group's key, the member's number or `-` for the group, packets, delivered bytes and
packets that were not delivered, each a second and rounded down, how many sends failed since the
screen before, and the member's percentage of the packets of its group.
Prints `refused C1`, with status 1, if CONTROL is no address. Fails with status 3: with `failed E4`
if a line has no reply, and with `failed E5` if the rules changed at each of 17 attempts of a reading.
Without --control it takes DSWITCH_CONTROL from the environment.

Examples:
  $ dswitch top --control unix:/run/dswitch/control
  $ dswitch top --count 1 | awk '$2 ~ /^[0-9]+$/ && $6 > 0 { print $1, $2, \"sends failed:\", $6 }'";
