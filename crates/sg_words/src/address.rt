ghost use Rattle.std.specs.Prelude.{◌≡◌, ◌+◌, ◌*◌, ◌^◌, ◌<◌, ◌≤◌, SomeIff};
ghost use Rattle.sg_words.specs.Address.{IsAddress, byte_at, word_at};

use std::marker::Model;

/// The byte address of a word of the heap: a multiple of 8, from 4096 up and below 2^40. A contract sees it as that number.
#[derive(Clone, Copy, Debug, PartialEq, Eq, PartialOrd, Ord, Hash)]
pub struct Addr {
    bytes: u64,
}

impl Model for Addr {
    ghost use Rattle.std.specs.Prelude.{ℕ};
    ghost use Rattle.sg_words.specs.Address.{IsAddress};

    ghost Value = { ℕ };

    ghost view = { λ a. a.bytes };

    ghost invariant = { λ a. IsAddress a.bytes };

    ghost inverse = { λ n. record { bytes = n } };
}

impl Addr {
    /// The address with this number; `None` exactly where the number is no address.
    pub fn of(a: u64) -> Option<Addr>
        ensures { SomeIff result (IsAddress a) a }
    {
        if 4096 <= a && a < 1 << 40 && a % 8 == 0 {
            Some(Addr { bytes: a })
        } else {
            None
        }
    }

    /// The address of the word with this number, which is from 512 up and below 2^37. It tests nothing.
    pub fn at_word(word: u64) -> Addr
        requires above { 512 ≤ word }
        requires below { word < 2 ^ 37 }
        ensures { result ≡ byte_at word }
    {
        Addr { bytes: 8 * word }
    }

    /// The byte address as a number.
    pub fn get(self) -> u64
        ensures value { result ≡ self }
        ensures address { IsAddress self }
    {
        self.bytes
    }

    /// The number of the word: the byte address divided by 8.
    pub fn word(self) -> u64
        ensures value { result ≡ word_at self }
        ensures whole { byte_at result ≡ self }
        ensures above { 512 ≤ result }
        ensures below { result < 2 ^ 37 }
    {
        self.bytes / 8
    }

    /// The address that lies `words` words above this one.
    pub fn plus(self, words: u32) -> Addr
        requires { self + 8 * words < 2 ^ 40 }
        ensures { result ≡ self + 8 * words }
    {
        Addr {
            bytes: self.bytes + 8 * words as u64,
        }
    }
}
