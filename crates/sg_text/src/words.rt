//! What single words mean.
ghost use Rattle.std.specs.Prelude.{◌≡◌, ◌≢◌, ◌<◌, ◌≤◌, ◌^◌, length, IfSome, slice_index};
ghost use Rattle.std.specs.List.{list_all};
ghost use Rattle.sg_text.specs.Words.{IsNumber, IsRegister, is_letter, is_name_byte, is_name, is_mask_byte, mask_bits};
ghost use Rattle.sg_text.specs.Steps.{Only};
ghost use Rattle.sg_text.specs.Sentences.{number_in, register_in};

/// So many digits spell a number below 2 ^ 64, whichever they are.
const MOST_DIGITS: usize = 19;

/// The number that the word spells.
#[inline(never)]
fn spelled(word: &[u8]) -> Option<u64>
    ensures found { IfSome result (IsNumber word.now) }
    ensures only { Only (IsNumber word.now) result }
{
    if word.is_empty() {
        return None;
    }
    if word[0] == b'+' {
        return None;
    }
    if word[0] == b'0' {
        return if word.len() == 1 { Some(0) } else { None };
    }
    match str::from_utf8(word) {
        Ok(text) => text.parse().ok(),
        Err(_) => None,
    }
}

/// The number that the word spells, digit by digit: it has too few of them to reach 2 ^ 64.
#[inline(never)]
fn few_digits(word: &[u8]) -> Option<u64>
    requires some { 0 < length word.now }
    requires few { length word.now ≤ 19 }
    requires lead { slice_index word.now 0 ≢ 48 }
    ensures found { IfSome result (IsNumber word.now) }
    ensures only { Only (IsNumber word.now) result }
{
    let mut number: u64 = 0;
    for at in 0..word.len() {
        let byte = word[at];
        if byte < b'0' {
            return None;
        }
        if byte > b'9' {
            return None;
        }
        number = 10 * number + u64::from(byte - b'0');
    }
    Some(number)
}

/// The number that the word spells, by the way that fits its length.
#[inline(never)]
fn spelled_by_length(word: &[u8]) -> Option<u64>
    ensures found { IfSome result (IsNumber word.now) }
    ensures only { Only (IsNumber word.now) result }
{
    match word {
        [first, ..] if *first != b'0' && word.len() <= MOST_DIGITS => few_digits(word),
        _ => spelled(word),
    }
}

/// The register that the word names.
#[inline(never)]
fn named(word: &[u8]) -> Option<u8>
    ensures found { IfSome result (IsRegister word.now) }
    ensures only { Only (IsRegister word.now) result }
{
    match word {
        [b'r', digits @ ..] => match spelled_by_length(digits) {
            Some(found) if found <= 15 => Some(found as u8),
            _ => None,
        },
        _ => None,
    }
}

/// The number that the word spells: most numbers of a text are single digits.
#[inline(always)]
pub(crate) fn number(word: &[u8]) -> Option<u64>
    ensures { result ≡ number_in word.now }
{
    match word {
        [byte] if byte.is_ascii_digit() => Some(u64::from(*byte - b'0')),
        _ => spelled_by_length(word),
    }
}

/// The register that the word names: most have a single digit.
#[inline(always)]
pub(crate) fn register(word: &[u8]) -> Option<u8>
    ensures { result ≡ register_in word.now }
{
    match word {
        [b'r', byte] if byte.is_ascii_digit() => Some(*byte - b'0'),
        _ => named(word),
    }
}

fn is_letter(byte: u8) -> bool
    ensures { result ≡ is_letter byte }
{
    byte.is_ascii_alphabetic()
}

fn is_name_byte(byte: u8) -> bool
    ensures { result ≡ is_name_byte byte }
{
    is_letter(byte) || byte.is_ascii_digit() || byte == b'_'
}

fn are_name_bytes(text: &[u8]) -> bool
    ensures { result ≡ list_all is_name_byte text.now }
{
    text.iter().all(|byte| is_name_byte(*byte))
}

/// Whether a class may have this name.
pub(crate) fn is_name(word: &[u8]) -> bool
    ensures { result ≡ is_name word.now }
{
    match word {
        [] => false,
        [first, rest @ ..] => is_letter(*first) && are_name_bytes(rest) && rest.len() <= 31,
    }
}

/// Whether the word has the bytes of a mask alone.
pub(crate) fn is_mask(word: &[u8]) -> bool
    ensures { result ≡ list_all is_mask_byte word.now }
{
    word.iter().all(|byte| *byte == b'r' || *byte == b'.')
}

/// The bits of a mask that is short enough for them.
pub(crate) fn mask_bits(mask: &[u8]) -> u64
    requires { length mask.now < 61 }
    ensures value { result ≡ mask_bits mask.now }
    ensures small { result < 2 ^ 60 }
{
    let mut bits = 0;
    let mut at = mask.len();
    while at > 0 {
        at -= 1;
        bits = 2 * bits + u64::from(mask[at] == b'r');
    }
    bits
}
