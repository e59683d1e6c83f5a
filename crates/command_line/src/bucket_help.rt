//! The text of `--help` for the commands about tables of buckets: `spread` and `drain`.

pub const SPREAD: &str = "Make a selector that spreads packets over members by weight";

pub const SPREAD_BUCKETS: &str = "The number of buckets: 1, 2, 4, 8, 16, 32, 64, 128 or 256";

pub const SPREAD_BY: &str =
    "The fields of a packet that choose its bucket: the source addresses, the source ports, or both";

pub const SPREAD_SHARES: &str = "A member's ID, and its weight from 0 to 65535; at most 64 members";

pub const SPREAD_MORE: &str = "\
Reads no input. Prints a selector as assembly text. It hashes the source of a packet into one of B
buckets, and returns the index of the bucket's member: 0 for the first ID=WEIGHT, 1 for the next. So
name the members in the order in which they join. Each member's number of buckets is less than one
away from its weight's share of B. If a member leaves or comes, few buckets of others move. FIELDS:
  addresses  packets of one source address go to one member
  ports      packets of one source port go to one member
  both       packets of one source address and port go to one member

Example:
  $ dswitch spread --buckets 2 --by addresses 7=1 8=1
  ld [12]
  mul #2654435761
  jge #2147483648,1,0
  ret #0
  ret #1";

pub const DRAIN: &str = "Take a member out of a group, and give its buckets to the others";

pub const DRAIN_KEY: &str = "The group's key, as ADDRESS:PORT";

pub const DRAIN_MEMBER: &str = "The ID of the member";

pub const DRAIN_MORE: &str = "\
Reads no input. Reads the rules of the switch at CONTROL. The selector of the group at KEY has to be
one that `spread` made. Makes its table without the member ID: each bucket of ID goes to the member
that has fewest at that moment; no other bucket moves. Sends the new selector and `leave KEY ID` as
one change of the version that was read. Prints `version V`, the version without ID.
If the rules change meanwhile (M1), or readers hold all rows (B2), it tries again, at most 16 times.
Else prints, with status 1:
  refused C1          if CONTROL is no address, KEY no endpoint, or ID no number
  refused G1          if the switch has no group at KEY
  refused G3          if the group has no member ID
  refused H1          if `spread` did not make its selector for its members, or ID is the only one
  the switch's reply  if it refuses the change
Fails with status 3: with `failed E4` if a line has no reply, and with `failed E5` if the rules
changed each time. After E4 the change may have been made: `drain` again; G3 shows that it was.
Without --control the environment's DSWITCH_CONTROL is taken.

Example:
  $ dswitch drain --control unix:/run/dswitch/control 10.0.0.2:53 7
  version 8";
