//! The words of a line, and what they say.
ghost use Rattle.std.specs.Prelude.{◌≡◌, ◌≤◌, ◌<◌, true, not, length, map, take, IfSome, IfNone};
ghost use Rattle.std.specs.List.{position_or_len};
ghost use Rattle.sg_text.specs.Words.{is_blank, is_line_feed, is_proper, words_of};
ghost use Rattle.sg_text.specs.Reading.{IsNoLine};
ghost use Rattle.sg_text.specs.Steps.{is_word_byte, first_line, lines_below, lines_left, AreAlike, AreSaid, AreNoLine, SaysMaybe};

use crate::line::Line;
use crate::sentence::line;

/// The most words of a line of the language.
pub(crate) const MOST_WORDS: usize = 6;

/// What a line says, if it has words, and the bytes behind its line feed, if it has one.
#[derive(Clone, Copy, Debug, PartialEq, Eq)]
pub(crate) struct Heard<'a> {
    pub(crate) said: Option<Line<'a>>,
    pub(crate) rest: Option<&'a [u8]>,
}

/// How many words a line has, and the bytes behind its line feed, if it has one.
#[derive(Clone, Copy, Debug, PartialEq, Eq)]
struct Split<'a> {
    count: usize,
    rest: Option<&'a [u8]>,
}

/// How many bytes stand before the first line feed.
fn line_len(bytes: &[u8]) -> usize
    ensures value { result ≡ position_or_len is_line_feed bytes.now }
    ensures within { result ≤ length bytes.now }
{
    for (at, byte) in bytes.iter().enumerate() {
        if *byte == b'\n' {
            return at;
        }
    }
    bytes.len()
}

fn is_blank(byte: u8) -> bool
    ensures { result ≡ is_blank byte }
{
    byte == b' ' || byte == b'\t' || byte == b'\r'
}

fn is_word_byte(byte: u8) -> bool
    ensures { result ≡ is_word_byte byte }
{
    33 <= byte && byte <= 126 && byte != b'#'
}

/// How many bytes of a word stand at the front.
fn word_len(text: &[u8]) -> usize
    ensures value { result ≡ position_or_len (λ c. not (is_word_byte c)) text.now }
    ensures within { result ≤ length text.now }
{
    for (at, byte) in text.iter().enumerate() {
        if !is_word_byte(*byte) {
            return at;
        }
    }
    text.len()
}

/// The text behind the space at its front, if one stands there.
fn past_space(text: &[u8]) -> &[u8]
    ensures alike { AreAlike text.now result.now }
    ensures within { length result.now ≤ length text.now }
{
    match text {
        [b' ', after @ ..] => after,
        _ => text,
    }
}

/// What words say, if there are some; `None` where they are no line of the language.
fn said_by<'a>(words: &[&'a [u8]]) -> Option<Option<Line<'a>>>
    ensures some { IfSome result (AreSaid (map (λ w. w.now) words.now)) }
    ensures none { IfNone result (AreNoLine (map (λ w. w.now) words.now)) }
{
    if words.is_empty() {
        return Some(None);
    }
    match line(words) {
        Some(found) => Some(Some(found)),
        None => None,
    }
}

/// Finds the words of the first line, and what stands below it; `None` where no text has such a line. The words come to the
/// front of `words`. It goes over the line's bytes once.
fn split_line<'a>(bytes: &'a [u8], words: &mut [&'a [u8]; MOST_WORDS]) -> Option<Split<'a>>
    ensures few { IfSome result (λ s. s.count ≤ 6) }
    ensures room { length words.new ≡ 6 }
    ensures proper { IfSome result (λ s. is_proper (first_line bytes.now) ≡ true) }
    ensures words { IfSome result (λ s. words_of (first_line bytes.now) ≡ map (λ w. w.now) (take s.count words.new)) }
    ensures rest { IfSome result (λ s. lines_below bytes.now ≡ lines_left s.rest) }
    ensures shorter { IfSome result (λ s. IfSome s.rest (λ rest. length rest.now < length bytes.now)) }
    ensures none { IfNone result (IsNoLine (first_line bytes.now)) }
{
    let mut count = 0;
    let mut rest = bytes;
    while let [first, after @ ..] = rest {
        if is_word_byte(*first) {
            if count == MOST_WORDS {
                return None;
            }
            let (word, more) = rest.split_at(1 + word_len(after));
            words[count] = word;
            count += 1;
            rest = past_space(more);
        } else if *first == b'\n' {
            return Some(Split {
                count,
                rest: Some(after),
            });
        } else if is_blank(*first) {
            rest = after;
        } else if *first == b'#' {
            let (_, more) = rest.split_at(line_len(rest));
            rest = more;
        } else {
            return None;
        }
    }
    Some(Split { count, rest: None })
}

/// What the first line says; `None` where no text has such a line. It goes over the line's bytes once. `words` is room for the
/// line's words, which a caller keeps from line to line: whatever stands in it is of no matter.
pub(crate) fn hear_line<'a>(
    bytes: &'a [u8],
    words: &mut [&'a [u8]; MOST_WORDS],
) -> Option<Heard<'a>>
    ensures said { IfSome result (λ h. SaysMaybe (first_line bytes.now) h.said) }
    ensures rest { IfSome result (λ h. lines_below bytes.now ≡ lines_left h.rest) }
    ensures shorter { IfSome result (λ h. IfSome h.rest (λ rest. length rest.now < length bytes.now)) }
    ensures none { IfNone result (IsNoLine (first_line bytes.now)) }
{
    let split = split_line(bytes, words)?;
    let said = said_by(&words[..split.count])?;
    Some(Heard {
        said,
        rest: split.rest,
    })
}
