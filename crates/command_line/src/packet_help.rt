//! The text of `--help` for the commands that make packets and find them in captures.

pub const PACK: &str = "Make a packet of UDP for `run`, `replay` and `judge`";

pub const PACK_FROM: &str = "The source, ADDRESS:PORT";

pub const PACK_TO: &str = "The destination, ADDRESS:PORT: the key of a group";

pub const PACK_PAYLOAD: &str = "The payload: two hexadecimal digits a byte, at most 65507 bytes";

pub const PACK_TEXT: &str = "The payload as a text, in place of digits";

pub const PACK_MORE: &str = "\
Reads no input. Prints the hexadecimal digits of an IPv4 packet of UDP on one line, with right
lengths and checksums. Without --payload and --text its payload is empty. Otherwise prints, with
status 1:
  refused C1  if A or KEY is not ADDRESS:PORT, HEX is not an even number of digits, or both HEX and
              TEXT are given
  refused C3  if the payload is too long

Example:
  $ dswitch pack --from 10.0.0.1:5000 --to 10.0.0.2:53 --text a
  4500001d00004000401126ce0a0000010a000002138800350009771c61";

pub const PACKETS: &str = "Print the packets of a capture as lines for `replay`";

pub const PACKETS_UNWRAP: &str =
    "Prints what the UDP datagrams to this port carry, from 1 to 65535, and no other packets";

pub const PACKETS_MORE: &str = "\
Reads a capture file of libpcap (pcap) from standard input: of link type raw IP, Ethernet with at
most two VLAN tags, Linux cooked v1 and v2, or loopback. Prints `packet HEX` for each IPv4 packet
in it, up to its total length. At the front of a switch each packet is inside another one: capture
on the tunnel's device, or use --unwrap. At the end standard error gets three counts:
  packets P cut C other O
the packets that were printed, those that the capture cut, and the records without an IPv4 packet.
With --unwrap PORT it prints the packets that UDP datagrams to this port carry, each in place of its
datagram. Other packets are left out, and count as other.
Prints, with status 1:
  refused L1         if it is no capture file
  refused L2         if it is a pcapng file
  refused L3         if its version is not 2.4
  refused L4 NUMBER  if its link type, NUMBER, is not supported
  refused L5 PLACE   if the file ends in a record, which begins at byte PLACE, counted from 0; the
                     packets before it are printed

Example:
  $ cat rules.txt <(dswitch packets <trace.pcap) | dswitch replay
  $ dswitch packets --unwrap 4500 <front.pcap";
