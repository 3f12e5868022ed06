//! The numbers of an image's text, which are written so in other texts too.

ghost use Rattle.std.specs.Prelude.{◌≡◌, ◌<◌, ◌≤◌, All, IfOk, IfSome, length, option_map};
ghost use Rattle.hex.specs.Hex.{decode_of};
ghost use Rattle.std.specs.Char.{digit_value};
ghost use Rattle.std.specs.List.{list_all};
ghost use Rattle.std.specs.Result.{result_ok};
ghost use Rattle.std.specs.Str.Parse.{digits_value};
ghost use Rattle.orc_walk.specs.Numbers.{bytes, decimal, hexadecimal, is_decimal_digit, is_hexadecimal_digit, is_numeral};

use hex::FromHexError;
use std::alloc::{AllocError, Global};

/// Whether the byte is a decimal digit.
fn is_decimal_digit(byte: u8) -> bool
    ensures { result ≡ is_decimal_digit byte }
{
    b'0' <= byte && byte <= b'9'
}

/// Whether the byte is a lower-case hexadecimal digit.
fn is_hexadecimal_digit(byte: u8) -> bool
    ensures { result ≡ is_hexadecimal_digit byte }
{
    b'0' <= byte && byte <= b'9' || b'a' <= byte && byte <= b'f'
}

/// Whether each byte is a decimal digit.
fn are_decimal_digits(word: &[u8]) -> bool
    ensures { result ≡ list_all is_decimal_digit word.now }
{
    word.iter().all(|byte| is_decimal_digit(*byte))
}

/// Whether each byte is a lower-case hexadecimal digit.
fn are_hexadecimal_digits(word: &[u8]) -> bool
    ensures { result ≡ list_all is_hexadecimal_digit word.now }
{
    word.iter().all(|byte| is_hexadecimal_digit(*byte))
}

/// The value of a digit.
fn digit_value(byte: u8) -> u64
    requires { digit_value byte < 16 }
    ensures { result ≡ digit_value byte }
{
    char::from(byte).to_digit(16).unwrap_or(0) as u64
}

/// The number that digits write.
fn digits_value(radix: u64, word: &[u8]) -> u64
    requires radix { radix ≤ 16 }
    requires short { length word.now ≤ 16 }
    requires digits { All (λ c. digit_value c < radix) word.now }
    ensures { result ≡ digits_value radix word.now }
{
    let mut value = 0;
    for byte in word {
        value = value * radix + digit_value(*byte);
    }
    value
}

/// Whether this is a word of 1 to 16 lower-case hexadecimal digits.
fn is_hexadecimal(word: &[u8]) -> bool
    ensures { result ≡ is_numeral is_hexadecimal_digit 16 word.now }
{
    !word.is_empty() && word.len() <= 16 && are_hexadecimal_digits(word)
}

/// Whether this is a word of 1 to 10 decimal digits.
fn is_decimal(word: &[u8]) -> bool
    ensures { result ≡ is_numeral is_decimal_digit 10 word.now }
{
    !word.is_empty() && word.len() <= 10 && are_decimal_digits(word)
}

/// The number that a word of 1 to 16 lower-case hexadecimal digits writes.
#[tactic(auto, unfolding(crate::specs::Numbers::hexadecimal))]
pub fn hexadecimal(word: &[u8]) -> Option<u64>
    ensures { result ≡ hexadecimal word.now }
{
    if is_hexadecimal(word) {
        Some(digits_value(16, word))
    } else {
        None
    }
}

/// The number below 2^32 that a word of 1 to 10 decimal digits writes.
#[tactic(auto, unfolding(crate::specs::Numbers::decimal))]
pub fn decimal(word: &[u8]) -> Option<u32>
    ensures { result ≡ decimal word.now }
{
    if !is_decimal(word) {
        return None;
    }
    let value = digits_value(10, word);
    if value < 1 << 32 {
        Some(value as u32)
    } else {
        None
    }
}

/// The bytes that hexadecimal digits of either case write, where there are two for each byte.
fn decoded(alloc: Global, word: &[u8]) -> Result<Option<Vec<u8>>, AllocError>
    ensures { IfOk result (λ v. option_map (λ v. v.items) v ≡ result_ok (decode_of word.now)) }
{
    match hex::decode(alloc, word) {
        Ok(written) => Ok(Some(written)),
        Err(fault) => match fault {
            FromHexError::OutOfMemory => Err(AllocError),
            _ => Ok(None),
        },
    }
}

/// The bytes that a word of lower-case hexadecimal digits writes: one or more, each by two digits, its
/// high four bits first.
#[tactic(auto, unfolding(crate::specs::Numbers::bytes))]
pub(crate) fn bytes(alloc: Global, word: &[u8]) -> Result<Option<Vec<u8>>, AllocError>
    ensures value { IfOk result (λ written. option_map (λ v. v.items) written ≡ bytes word.now) }
    ensures not_empty { IfOk result (λ written. IfSome written (λ v. 0 < length v.items)) }
{
    if !word.is_empty() && are_hexadecimal_digits(word) {
        decoded(alloc, word)
    } else {
        Ok(None)
    }
}
