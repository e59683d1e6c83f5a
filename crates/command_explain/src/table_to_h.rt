//! The codes A1 to H1 with their explanations, printed by docs/codes/make. `table_from_i` has the others: a check
//! computes over the whole of a table.

pub const EXPLANATIONS_TO_H: [(&str, &str); 30] = [
    (
        "A1",
        "\
A1: A line of the program is no label and no instruction.
Usual mistake: a missing `#` before a constant (`jeq 17,0,1`), a comment, or a
mnemonic that is left out, such as `jne`.
What to do: correct line NUMBER, counted from 1.",
    ),
    (
        "A2",
        "\
A2: A jump goes to a label that no line defines.
Usual mistake: a misspelt label; names differ by case.
What to do: define the label on a line below the jump, or correct its spelling.",
    ),
    (
        "A3",
        "\
A3: A label is defined a second time.
Usual mistake: a block that was pasted twice.
What to do: take one of the two labels away, or give it another name.",
    ),
    (
        "A4",
        "\
A4: A jump goes back, or to its own instruction.
Usual mistake: a loop: BPF has none, so jumps go forward only.
What to do: turn the test round, so that the program goes on below it.",
    ),
    (
        "A5",
        "\
A5: A jump goes too far. A conditional jump skips at most 255 instructions,
`ja` at most 4294967295.
Usual mistake: a test before a long block; jump to a `ja` that is near.
What to do: jump to a `ja` that is near, and from there to the far place.",
    ),
    (
        "A6",
        "\
A6: Memory for the program's text was refused.
No command prints this code: a call of the libraries returns it. If memory is
refused, the program prints `failed E3` instead.",
    ),
    (
        "B1",
        "\
B1: The new configuration is too large to be published. Its charge is above
8192.
Usual mistake: too many or too large programs; groups and members count 4 each,
so 64 groups have room for 1983 members without programs; `show` has the
charge, and a shorter expression lowers it.
What to do: clear programs that are not used or write them shorter, take groups
or members away, and send the line again.",
    ),
    (
        "B2",
        "\
B2: No row of the version table is free at the moment. Each worker was scanned.
Usual mistake: none in the line: a worker is held up inside an old version, so
that sixteen are in use.
What to do: send the line again; `sweep` reports how many versions have become
free.",
    ),
    (
        "B3",
        "\
B3: The switch has used up its version numbers. The last one is 2^48.
Usual mistake: none in the line: the switch has run for very long.
What to do: restart the switch, and send its rules again.",
    ),
    (
        "C1",
        "\
C1: The text is malformed. HEX has an odd number of digits or another
character; a control line is not in their table; an address is not `a.b.c.d:p`,
or for control `unix:PATH`; the words of `explain` have no code of this page;
the command does not have the NAME of `--format`.
Usual mistake: `0x` before HEX, a digit lost in copying, or HEX with the spaces
of `tcpdump -x`; two spaces in a line, a space at its end, a CR or an LF in a
control datagram (`echo` adds an LF, `printf` does not), a leading zero as in
`010.0.0.2:53`, a host name for an address, a line of `tell` without quotes
beside one with quotes, so that each of its words is a line, a comment or an
empty line, `packet` sent to `serve`, `all N` with fewer or more lines than N,
a code in small letters, `--format dd` for a program that is read.
What to do: write it in the form that `dswitch help COMMAND` shows;
`dswitch help replay` shows the control lines.",
    ),
    (
        "C2",
        "\
C2: The line, the block or the file is too long. A line has more than 262,144
bytes, or more than 65,507 if it is sent to a running switch over UDP; the
lines of a block, or a rules file, have more than 16,777,216; or a rules file
has more than 65,535 lines that are not skipped.
Usual mistake: a script without line ends, a program generated as one huge
line, or a change that fits no datagram.
What to do: end each line with a line feed, write a long program shorter, and
split a change; `--control unix:PATH` and `serve --rules` take more than a
datagram.",
    ),
    (
        "C3",
        "\
C3: The packet is too long. It has more than 65,535 bytes.
Usual mistake: a whole capture in place of one packet.
What to do: give one packet, from its IPv4 header to the end by its total
length.",
    ),
    (
        "E1",
        "\
E1: The input could not be read.
Reading standard input failed, a script has 2^63 bytes, or the file of
`--rules` or of `load` could not be opened or read. The input is a directory,
there is no such file, the user may not read it, or its device failed; give a
file or a pipe, as in `dswitch replay <FILE`. With `metrics --front`,
/proc/net/udp could not be read, or has no socket at that address: the switch
runs on another machine or in another network namespace, or its front has
another address (`ss -ulpn`); correct the address, or leave `--front` out.",
    ),
    (
        "E2",
        "\
E2: Results could not be written.
A write of results failed, or of a `refused` line. The disk is full
(`dswitch first >/dev/full` shows it): make room and run the command again. Or
what reads the pipe has ended, as `head -1` does; let it read on if more is
wanted.",
    ),
    (
        "E3",
        "\
E3: Memory ran out.
An allocation was refused, perhaps while the arguments were read. As the reply
to a control request it means that nothing was changed. The process is at its
memory limit; raise it (`ulimit -v`), or make the input shorter, and try again.",
    ),
    (
        "E4",
        "\
E4: A line had no reply.
No reply came in the seconds of `--timeout`, the line could not be sent, the
switch closed the connection, or 4096 datagrams came from elsewhere first.
`tell` sent no later line. No switch runs at that address (`ss -ulpn` shows who
listens, `ss -xlp` at a `unix:PATH`), the user may not write to its socket
file, it is bound to 0.0.0.0 and replies from another address (on its machine
give 127.0.0.1), a firewall drops the datagrams, or the switch is busy; start
it, correct the address, or raise `--timeout`. The line may be done all the
same, even after `tell` has ended. A change that begins with `at V ` may be
sent again at once. Before any other line is sent again over UDP, send `show`
until a reply comes: by then the line is done, or it was lost. Over a socket
file a reply to `show` does not prove that; look at the rules (`rules`). After
`load`, `load` again: it does nothing if the change was made.",
    ),
    (
        "E5",
        "\
E5: The rules of the switch changed while they were read.
`rules`, `load`, `metrics` and `top` read the rules by many requests, and start
again if the version has changed meanwhile, if a group or member that is
counted has gone, or if another change came between reading and replacing;
after 16 more attempts they give up. Another program changes the rules all the
time, readers held all rows (B2) each time, or a reply did not belong to its
line, as when a network delivers one twice. Find out who changes the rules, and
run the command again when they no longer change.",
    ),
    (
        "F1",
        "\
F1: The expression needs too many scratch cells. There are 16.
Usual mistake: arithmetic nested to the right, as `1+(1+(..))`; nest it to the
left.
What to do: nest the arithmetic to the left, or write the program in assembly.",
    ),
    (
        "F2",
        "\
F2: The expression is too large. Its size is above 4096.
Usual mistake: a long list of hosts or ports; use `net` and `portrange`, or
write assembly.
What to do: write the expression shorter, or the program in assembly.",
    ),
    (
        "F3",
        "\
F3: Memory for the expression's program was refused.
No command prints this code: a call of the libraries returns it. If memory is
refused, the program prints `failed E3` instead.",
    ),
    (
        "G1",
        "\
G1: There is no group with this key, or at this place.
Usual mistake: `add` forgotten, or another address or port.
What to do: `add` the group, or correct the key or the place.",
    ),
    (
        "G2",
        "\
G2: A group with this key is there already.
Usual mistake: a script that was sent twice.
What to do: go on if the group is right; otherwise `remove` it first.",
    ),
    (
        "G3",
        "\
G3: The group has no member with this number, or at this index.
Usual mistake: the member left before, or belongs to another group; an index
counted from 1.
What to do: `join` the member first, or name the group that it belongs to; an
index counts from 0.",
    ),
    (
        "G4",
        "\
G4: The group has a member with this number already.
Usual mistake: a member that should move: `leave` first.
What to do: `leave` first and then `join`, or take another number.",
    ),
    (
        "G5",
        "\
G5: There are 64 groups already.
Usual mistake: groups are kept that nobody uses.
What to do: `remove` a group, and send the line again.",
    ),
    (
        "G6",
        "\
G6: The group has 64 members already.
Usual mistake: members are kept that have ended.
What to do: let a member `leave`, and send the line again.",
    ),
    (
        "G7",
        "\
G7: There is no program to clear or to read.
Usual mistake: `none` sent twice, or `words` of a program that is not there.
What to do: go on: there is nothing to clear or to read.",
    ),
    (
        "G8",
        "\
G8: Memory for the new configuration was refused.
No command prints this code: a call of the libraries returns it. If memory is
refused, the program prints `failed E3` instead.",
    ),
    (
        "G9",
        "\
G9: The member's filter is locked. It stays as it is.
Usual mistake: a rule that somebody locked on purpose; the lock ends only when
the member leaves (`leave`, then `join`) or its group is removed.
What to do: leave the rule as it is, or let the member `leave` and `join`
again.",
    ),
    (
        "H1",
        "\
H1: The selector of the group is not one that `spread` makes for its members,
or the group has no other member. `drain` sent nothing.
Usual mistake: a selector that was written by hand or compiled, or none; a
selector for fewer or more members than the group has; `drain` of the last
member.
What to do: make a selector by `spread` with the members in the order of
`rules`, and set it; or let the member `leave`, and set a selector of your own.",
    ),
];
