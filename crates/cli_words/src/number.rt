//! The number of `demo N`, and the address of `find TABLE ADDR`.

ghost use Rattle.std.specs.Prelude.{◌≡◌};
ghost use Rattle.std.specs.List.{list_all};
ghost use Rattle.cli_words.specs.Numbers.{address_of, is_address, is_digit, is_hexadecimal_digit, is_numeral, number_of};

/// The most functions that an object may have which is made up.
const MOST: u32 = 100_000;

/// Whether a byte is a decimal digit.
fn is_digit(byte: u8) -> bool
    ensures { result ≡ is_digit byte }
{
    b'0' <= byte && byte <= b'9'
}

/// Whether each byte is a decimal digit.
fn are_digits(word: &[u8]) -> bool
    ensures { result ≡ list_all is_digit word.now }
{
    word.iter().all(|byte| is_digit(*byte))
}

/// Whether a word is one to six digits, without a zero in front of another digit.
fn is_numeral(word: &[u8]) -> bool
    ensures { result ≡ is_numeral word.now }
{
    !word.is_empty() && word.len() <= 6 && are_digits(word) && (word.len() == 1 || word[0] != b'0')
}

/// The number that a word writes, where it is one from 0 to 100,000.
#[tactic(auto, unfolding(crate::specs::Numbers::number_of))]
pub fn number_of(word: &str) -> Option<u32>
    ensures { result ≡ number_of word.now }
{
    if !is_numeral(word.as_bytes()) {
        return None;
    }
    match word.parse::<u32>() {
        Ok(number) => (number <= MOST).then_some(number),
        Err(_) => None,
    }
}

/// Whether a byte is a lower-case hexadecimal digit.
fn is_hexadecimal_digit(byte: u8) -> bool
    ensures { result ≡ is_hexadecimal_digit byte }
{
    is_digit(byte) || b'a' <= byte && byte <= b'f'
}

/// Whether each byte is a lower-case hexadecimal digit.
fn are_hexadecimal_digits(word: &[u8]) -> bool
    ensures { result ≡ list_all is_hexadecimal_digit word.now }
{
    word.iter().all(|byte| is_hexadecimal_digit(*byte))
}

/// Whether a word is 1 to 16 lower-case hexadecimal digits.
fn is_address(word: &[u8]) -> bool
    ensures { result ≡ is_address word.now }
{
    !word.is_empty() && word.len() <= 16 && are_hexadecimal_digits(word)
}

/// The address that a word of 1 to 16 lower-case hexadecimal digits writes.
#[tactic(auto, unfolding(crate::specs::Numbers::address_of))]
pub fn address_of(word: &str) -> Option<u64>
    ensures { result ≡ address_of word.now }
{
    if !is_address(word.as_bytes()) {
        return None;
    }
    match u64::from_str_radix(word, 16) {
        Ok(address) => Some(address),
        Err(_) => None,
    }
}
