//! Which objects of the nursery ambiguous words pin.
//!
//! An ambiguous word is any 64-bit number. It pins the object that it points into as a byte address, at the object's
//! first byte or at any other.
#![tactic(auto)]

mod merge;
mod queue;

pub use queue::{pin_queue, pinned_among};

#[cfg(test)]
mod tests {
    use super::{pin_queue, pinned_among};
    use sg_space::{Layout, Object, Space};
    use sg_words::Addr;
    use std::test::Fail;

    // Objects of 4, 3 and 2 words at 4096, 4136 and 4160. The first list of words points below the first, between it and
    // the second, and behind the third; the second one to the first's last byte, and twice to the third's second word.
    #[test]
    fn words_that_pin(rt: HostRuntime) -> Result<(), Fail> {
        let first = Addr::of(4096).ok_or("an address")?;
        let second = Addr::of(4136).ok_or("an address")?;
        let third = Addr::of(4160).ok_or("an address")?;
        let objects = [
            Object {
                at: first,
                class: 0,
                fields: 2,
                words: 4,
            },
            Object {
                at: second,
                class: 1,
                fields: 1,
                words: 3,
            },
            Object {
                at: third,
                class: 2,
                fields: 0,
                words: 2,
            },
        ];
        let none = pinned_among(rt.alloc(), &[u64::MAX, 4128, 0, 4176, 4095], &objects)?;
        assert_eq!(rt; none.as_slice().len(), 0);
        let pinned = pinned_among(
            rt.alloc(),
            &[4170, u64::MAX, 4127, 4168, 0],
            &objects,
        )?.into_vec();
        assert_eq!(rt; pinned.len(), 2);
        assert_eq!(rt; pinned[0], first);
        assert_eq!(rt; pinned[1], third);
        Ok(())
    }

    // In a nursery without objects no word points into one.
    #[test]
    fn nothing_to_pin(rt: HostRuntime) -> Result<(), Fail> {
        let layout = Layout {
            nursery: 256,
            blocks: 1,
            pages: 0,
        };
        let space = Space::new(rt.alloc(), layout, &[])?;
        let pinned = pin_queue(rt.alloc(), &[4096, 0, u64::MAX], &space)?;
        assert_eq!(rt; pinned.as_slice().len(), 0);
        Ok(())
    }
}
