//! Addresses: sums on them wrap at 2^64.

ghost use Rattle.std.specs.Prelude.{◌≡◌, neg_ℤ};
ghost use Rattle.state_defs.specs.Address.{up, down, shifted};

/// The address n bytes above.
pub fn up(address: u64, n: u64) -> u64
    ensures { result ≡ up address n }
{
    address.wrapping_add(n)
}

/// The address n bytes below.
pub fn down(address: u64, n: u64) -> u64
    ensures { result ≡ down address n }
{
    address.wrapping_sub(n)
}

/// The address moved up by a signed number of bytes.
pub fn shifted(address: u64, by: i64) -> u64
    ensures { result ≡ shifted address by }
{
    if by >= 0 {
        up(address, by.unsigned_abs())
    } else {
        down(address, by.unsigned_abs())
    }
}

/// The address moved down by a signed number of bytes.
pub fn shifted_back(address: u64, by: i64) -> u64
    ensures { result ≡ shifted address (neg_ℤ by) }
{
    if by > 0 {
        down(address, by.unsigned_abs())
    } else {
        up(address, by.unsigned_abs())
    }
}
