//! The checksum of IPv4 and UDP (RFC 1071, section 1).

ghost use Rattle.std.specs.Prelude.{◌≡◌, ◌+◌, ◌*◌, ◌%◌, ◌^◌, ◌<◌, ◌≤◌, length};
ghost use Rattle.packet_udp.specs.body.Bytes.{address_sum, word_sum};

/// Returns the sum of the 16-bit words of bytes. An odd last byte is padded by a zero byte.
pub(crate) fn word_sum(bytes: &[u8]) -> u64
    requires { length bytes.now < 2 ^ 32 }
    ensures sum { result ≡ word_sum bytes.now }
    ensures most { result ≤ 65536 * length bytes.now }
{
    let mut sum = 0;
    let mut left = bytes;
    while let [high, low, rest @ ..] = left {
        sum += u64::from(*high) * 256 + u64::from(*low);
        left = rest;
    }
    if let [high] = left {
        sum += u64::from(*high) * 256;
    }
    sum
}

/// Returns the sum of the two words of an address.
pub(crate) fn address_sum(address: u32) -> u64
    ensures sum { result ≡ address_sum address }
    ensures most { result < 2 ^ 17 }
{
    u64::from(address >> 16) + u64::from(address & 0xffff)
}

/// Returns the one's complement of the one's complement sum of words, whose plain sum is given.
pub(crate) fn checksum_of(sum: u64) -> u16
    requires { 1 ≤ sum }
    ensures completes { (sum + result) % 65535 ≡ 0 }
    ensures most { result < 65535 }
{
    // The one's complement sum of words that are not all 0 is 1 + (sum - 1) % 0xffff.
    (0xfffe - (sum - 1) % 0xffff) as u16
}
