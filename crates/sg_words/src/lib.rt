//! Words of the simulated heap: addresses, tags, lists, and the atomic steps that actors take on shared words.
//!
//! The heap is an array of 64-bit words. An address is a byte address and a multiple of 8; a word number is an
//! address divided by 8.
#![tactic(auto)]

mod address;
mod layout;
mod lists;
mod masks;
mod pieces;
mod steps;
mod tags;

pub use address::Addr;
pub use layout::{BLOCK_WORDS, FIRST_WORD, GLOBALS, LINKS, Layout, PAGE_WORDS, READY_ENTRIES};
pub use lists::List;
pub use masks::first_clear;
pub use pieces::{Move, Piece};
pub use steps::{BlockCall, BlockStep, BlockWord, Call, Place, Step, Tick};
pub use tags::{Tag, forwarded_to, pinned_class, plain_class, read_tag, write_tag};

#[cfg(test)]
mod tests {
    use super::*;
    use std::test::Fail;

    // Worked values from outside: an address, and the tag of class 0.
    #[test]
    fn words_of_the_heap(rt: HostRuntime) -> Result<(), Fail> {
        let first = Addr::of(4096).ok_or("an address")?;
        assert_eq!(rt; first.plus(4).get(), 4128);
        assert_eq!(rt; write_tag(Tag::Plain { class: 0 }), 8);
        assert_eq!(rt; read_tag(8), Some(Tag::Plain { class: 0 }));
        let to = Addr::of(6144).ok_or("an address")?;
        assert_eq!(rt; write_tag(Tag::Pinned { class: 0 }), 10);
        assert_eq!(rt; write_tag(Tag::Cemented { class: 0 }), 12);
        assert_eq!(rt; write_tag(Tag::Forwarded { to }), 6145);
        assert_eq!(rt; read_tag(6145), Some(Tag::Forwarded { to }));
        assert_eq!(rt; first_clear(0b1011, 4), Some(2));
        assert_eq!(rt; first_clear(u64::MAX, 64), None);
        for word in [0, 3, 9, 2056] {
            assert_eq!(rt; read_tag(word), None, "at {word}");
        }
        let list = List::from_vec([4096u64, 4128].to_vec(rt.alloc())?);
        assert_eq!(rt; list.as_slice(), [4096, 4128].as_slice());
        assert_eq!(rt; list.into_vec().len(), 2);
        Ok(())
    }
}
