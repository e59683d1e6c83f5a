//! Delivered packets and their bytes in one number, so that a packet is counted by one addition (docs/INTERNALS.md, "A log adds up runs").

ghost use Rattle.std.specs.Prelude.{◌≡◌, ◌+◌, ◌-◌, ◌%◌, ◌<◌, ◌^◌};
ghost use Rattle.member_counts.specs.body.Runs.{IsPacked, packed_one, unpacked};

use crate::counts::Counts;

// No packet. The low 64 bits are 2^64 - 1 minus the number of packets, the high 64 bits are 1 plus the number of packets plus the number of
// bytes.
pub(crate) const NOTHING: u128 = 0x1_FFFF_FFFF_FFFF_FFFF;

// Returns what is added for one packet: 1 + `bytes` to the high half, and then 1 is subtracted. So one addition changes both halves, and if the
// sum fits, so does the number of packets.
#[inline(always)]
pub(crate) fn packed_one(bytes: usize) -> u128
    ensures packed { result ≡ packed_one bytes }
    ensures fits { result < 2 ^ 128 }
{
    bytes as u128 * 0x1_0000_0000_0000_0000 + 0xFFFF_FFFF_FFFF_FFFF
}

// Undoes an addition that needed more than 128 bits. It is not inlined, so that the sum is made in memory.
#[cold]
#[inline(never)]
pub(crate) fn take_back(packed: &mut u128, one: u128)
    ensures { packed.new ≡ (packed.old + 2 ^ 128 - one) % 2 ^ 128 }
{
    *packed = packed.wrapping_sub(one);
}

// Returns the counts of these packets.
#[inline(always)]
pub(crate) fn unpacked(packed: u128) -> Counts
    requires { IsPacked packed }
    ensures { result ≡ unpacked packed }
{
    let delivered = 0xFFFF_FFFF_FFFF_FFFF - (packed % 0x1_0000_0000_0000_0000) as u64;
    let both = (packed / 0x1_0000_0000_0000_0000) as u64 - 1;
    Counts {
        delivered,
        bytes: both - delivered,
        ..Counts::none()
    }
}
