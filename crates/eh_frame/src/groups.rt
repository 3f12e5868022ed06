//! Numbers of variable length, LEB128 (DWARF 4, section 7.6).

ghost use Rattle.std.specs.Prelude.{◌≡◌, ◌≤◌, ◌<◌, ◌^◌, length, IfSome};
ghost use Rattle.eh_frame.specs.ReadGroups.{last_group, one_more_group, read_groups, read_number};

/// A number in groups of seven bits.
#[derive(Clone, Copy)]
pub(crate) struct Number {
    /// Whether the number is below zero, -1 - `bits`.
    pub turned: bool,
    /// The number, or what it is below -1.
    pub bits: u64,
    /// How many bytes it takes.
    pub len: usize,
}

/// The most bytes that a number of 32 bits takes.
const MOST: usize = 5;

/// The number of at most 32 bits at the beginning of some bytes, where its spelling is the shortest; or a greater one that takes no
/// more bytes. `limit` is 128 for an unsigned number and 64 for a signed one.
pub(crate) fn read_number(bytes: &[u8], limit: u8) -> Option<Number>
    requires { limit ≤ 128 }
    ensures value { result ≡ read_number bytes.now limit }
    ensures bound { IfSome result (λ n. n.bits < 2 ^ 35) }
    ensures len { IfSome result (λ n. n.len ≤ 5) }
{
    read_groups(&bytes[..bytes.len().min(MOST)], limit)
}

/// The number in groups at the beginning of at most five bytes.
#[tactic(auto, unfolding(crate::specs::ReadGroups::read_groups))]
fn read_groups(bytes: &[u8], limit: u8) -> Option<Number>
    requires few { length bytes.now ≤ 5 }
    requires limit { limit ≤ 128 }
    ensures value { result ≡ read_groups limit bytes.now }
    ensures bound { IfSome result (λ n. n.bits < 2 ^ 35) }
    ensures len { IfSome result (λ n. n.len ≤ length bytes.now) }
{
    match bytes {
        [] => None,
        [byte, ..] if *byte < 128 => Some(last(*byte, limit)),
        [byte, further @ ..] => match read_groups(further, limit) {
            None => None,
            Some(high) => one_more(*byte, limit, high),
        },
    }
}

/// The number whose lowest group is in a byte, and whose higher groups are those of another.
fn one_more(byte: u8, limit: u8, high: Number) -> Option<Number>
    requires byte { 128 ≤ byte }
    requires bits { high.bits < 2 ^ 28 }
    requires len { high.len ≤ 5 }
    ensures value { result ≡ one_more_group limit byte high }
    ensures bound { IfSome result (λ n. n.bits < 2 ^ 35) }
{
    let low = if high.turned { 255 - byte } else { byte - 128 };
    let bits = u64::from(low) + 128 * high.bits;
    if bits < u64::from(limit) {
        return None;
    }
    Some(Number {
        turned: high.turned,
        bits,
        len: high.len + 1,
    })
}

/// The number of one byte.
fn last(byte: u8, limit: u8) -> Number
    requires { byte < 128 }
    ensures value { result ≡ last_group limit byte }
    ensures bound { result.bits < 2 ^ 35 }
{
    if byte < limit {
        Number {
            turned: false,
            bits: u64::from(byte),
            len: 1,
        }
    } else {
        Number {
            turned: true,
            bits: u64::from(127 - byte),
            len: 1,
        }
    }
}
