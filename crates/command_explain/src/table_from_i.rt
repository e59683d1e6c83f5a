//! The codes I1 to X2 with their explanations, printed by docs/codes/make. `table_to_h` has the others: a check
//! computes over the whole of a table.

pub const EXPLANATIONS_FROM_I: [(&str, &str); 37] = [
    (
        "I1",
        "\
I1: The word is no instruction: no instruction has its code.
No command prints this code: a call of the libraries returns it.",
    ),
    (
        "I2",
        "\
I2: The word is no instruction: a field that it does not use is not 0.
No command prints this code: a call of the libraries returns it.",
    ),
    (
        "J1",
        "\
J1: A worker's thread could not be started.
The user's or the unit's limit of threads is reached (`ulimit -u`,
`TasksMax=`); raise it, or take fewer `--workers`.",
    ),
    (
        "J2",
        "\
J2: Memory for the workers' threads was refused.
No command prints this code: a call of the libraries returns it. If memory is
refused, the program prints `failed E3` instead.",
    ),
    (
        "K1",
        "\
K1: A line of the program is not in the format that was named.
Usual mistake: assembly text, or what `tcpdump -d` prints; two spaces, a
leading zero, `0x` or a carriage return.
What to do: correct line NUMBER, counted from 1 (a comma ends a line), or name
another format by `--format`.",
    ),
    (
        "K2",
        "\
K2: The program has another number of instructions than its first line says.
Usual mistake: a line lost in copying.
What to do: copy the whole program, or correct the count.",
    ),
    (
        "K3",
        "\
K3: Memory for the program's words was refused.
No command prints this code: a call of the libraries returns it. If memory is
refused, the program prints `failed E3` instead.",
    ),
    (
        "L1",
        "\
L1: The input is no capture file. It does not begin with the magic number of
one.
Usual mistake: a text, or a compressed capture.
What to do: give a file that `tcpdump -w` wrote; decompress it first
(`gunzip`).",
    ),
    (
        "L2",
        "\
L2: The capture is a pcapng file.
Usual mistake: a file of Wireshark or dumpcap, which write pcapng by default.
What to do: convert it to pcap, by `tcpdump -r FILE -w -` or `editcap -F pcap`.",
    ),
    (
        "L3",
        "\
L3: The capture file has another version than 2.4.
Usual mistake: a file of a very old program, or one that was damaged.
What to do: write it anew by `tcpdump -r FILE -w -`.",
    ),
    (
        "L4",
        "\
L4: The link type of the capture is not read.
Usual mistake: a capture of Wi-Fi with radio headers (127), of USB, or of
Bluetooth.
What to do: capture by `tcpdump -y` with a link type that is read. NUMBER is
that of the capture.",
    ),
    (
        "L5",
        "\
L5: The capture file is cut. It ends in its header or in a record.
Usual mistake: a file that is still being written, a disk that was full, or a
copy that broke off.
What to do: use the packets that were printed. NUMBER is the byte, counted from
0, at which the cut record or header begins; everything before it is complete.",
    ),
    (
        "M1",
        "\
M1: The change is for another version than the current one, whose number
follows.
Usual mistake: none in the line: somebody else changed the rules meanwhile, or
the same change was sent twice.
What to do: read the rules again, and send the change for the current version
if it is still wanted.",
    ),
    (
        "N1",
        "\
N1: A counter is full.
No command prints this code: a call of the libraries returns it.",
    ),
    (
        "O1",
        "\
O1: The opening configuration is too large.
No command prints this code: a call of the libraries returns it.",
    ),
    (
        "O2",
        "\
O2: Memory for the version table was refused.
No command prints this code: a call of the libraries returns it. If memory is
refused, the program prints `failed E3` instead.",
    ),
    (
        "P1",
        "\
P1: The text is no filter expression.
Usual mistake: a host name, a port's name or `ether`, which are left out;
`port 53 or 54` for `port 53 or port 54`; the expression without quotes, so
that the shell cut it.
What to do: look at byte NUMBER, counted from 0, and give the expression in
quotes.",
    ),
    (
        "P2",
        "\
P2: A number in the expression is too large.
Usual mistake: a port above 65535, a protocol above 255.
What to do: write a number that its field can have.",
    ),
    (
        "P3",
        "\
P3: An address in the expression is misspelt. It is not four numbers of 0 to
255.
Usual mistake: `10.0.0`, or a leading zero as in `10.0.0.01`.
What to do: write four numbers from 0 to 255 with dots between, without leading
zeros.",
    ),
    (
        "P4",
        "\
P4: A network's prefix does not fit. Its length is above 32, or the address has
a bit set past it.
Usual mistake: `net 10.0.0.1/8` for `net 10.0.0.0/8`.
What to do: clear the bits past the prefix, or write a longer prefix.",
    ),
    (
        "P5",
        "\
P5: The expression is nested too deeply. More than 64 brackets are open, or the
tree is deeper than 64.
Usual mistake: a list of 65 and more parts joined by `or`; put halves in
brackets.
What to do: put halves of the list in brackets, so that no part is nested
deeply.",
    ),
    (
        "P6",
        "\
P6: Memory for the expression was refused.
No command prints this code: a call of the libraries returns it. If memory is
refused, the program prints `failed E3` instead.",
    ),
    (
        "S1",
        "\
S1: A socket could not be bound.
Another process has the port (`ss -ulpn`), the address does not belong to this
machine, both addresses are the same, the port is below 1024 and needs a
privilege, or the process may open no more files (`ulimit -n`): each worker has
a socket.",
    ),
    (
        "S2",
        "\
S2: The sockets could not be waited for.
The process may open no more files (`ulimit -n`); raise the limit and run the
command again. A switch that reports this has ended.",
    ),
    (
        "V1",
        "\
V1: The program has no instruction.
Usual mistake: an empty file, or labels alone.
What to do: write an instruction; `ret #0` alone is a program.",
    ),
    (
        "V2",
        "\
V2: The program is too long. It has more than 4096 instructions.
Usual mistake: a generated list of tests; use ranges, or split it over members.
What to do: write the program shorter, or split it.",
    ),
    (
        "V3",
        "\
V3: An instruction has an unknown opcode.
Usual mistake: an instruction of eBPF, or one that only the kernel has; no
assembly text gives it, only a program in numbers, or words that are passed to
the library.
What to do: pass an opcode of the instruction set.",
    ),
    (
        "V4",
        "\
V4: An instruction has a field that it does not use, and that is not 0.
Usual mistake: as V3: words of a kernel's or another tool's making.
What to do: set the field to 0.",
    ),
    (
        "V5",
        "\
V5: An instruction divides by 0.
Usual mistake: a constant that was computed wrongly.
What to do: divide by another constant.",
    ),
    (
        "V6",
        "\
V6: An instruction shifts by 32 or more.
Usual mistake: a width in bits that was taken for a shift.
What to do: shift by 0 to 31.",
    ),
    (
        "V7",
        "\
V7: An instruction names a scratch cell that is not there. There are M[0] to
M[15].
Usual mistake: cells counted from 1.
What to do: take a cell from M[0] to M[15].",
    ),
    (
        "V8",
        "\
V8: A jump goes past the end of the program.
Usual mistake: an offset counted from the jump itself; offsets count from the
next instruction.
What to do: let the jump end at an instruction of the program.",
    ),
    (
        "V9",
        "\
V9: An absolute load is at 2^31 or above.
Usual mistake: an offset of the kernel's ancillary data, such as -4096 written
as 4294963200; there is none here.
What to do: load from a place in the packet, counted from the IPv4 header's
first byte.",
    ),
    (
        "V10",
        "\
V10: The program does not end in a return.
Usual mistake: `ret` forgotten at the end of the last branch.
What to do: put `ret #0`, or another return, at the end.",
    ),
    (
        "V11",
        "\
V11: A scratch cell may be loaded before it is stored.
Usual mistake: `st M[k]` in one branch only.
What to do: store the cell on every path to the load.",
    ),
    (
        "X1",
        "\
X1: A receive failed.
No command prints this code: a call of the libraries returns it.",
    ),
    (
        "X2",
        "\
X2: A worker's counter is full.
No command prints this code: a call of the libraries returns it.",
    ),
];
