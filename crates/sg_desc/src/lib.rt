//! Which fields of an object hold references, and the word that says so.
#![tactic(auto)]

mod codes;
mod shapes;

pub use codes::{decode, encode};
pub use shapes::{Descriptor, Shape};

#[cfg(test)]
mod tests {
    use super::*;

    // A mask `r.` has bit 0 set; a run of 2 from field 1 has fields 1 and 2.
    #[test]
    fn fields_of_a_mask(rt: HostRuntime) {
        let kind = Descriptor::Bitmap { bits: 1 };
        assert!(rt; kind.is_ref(0, 2));
        assert!(rt; !kind.is_ref(1, 2));
        assert!(rt; !Descriptor::PtrFree.is_ref(0, 2));
        let run = Descriptor::Run { first: 1, count: 2 };
        assert!(rt; !run.is_ref(0, 4));
        assert!(rt; run.is_ref(1, 4));
        assert!(rt; run.is_strong(2, 4));
        assert!(rt; !run.is_ref(3, 4));
        assert!(rt; Descriptor::Ephemeron.is_ref(1, 2));
        assert!(rt; !Descriptor::Ephemeron.is_strong(1, 2));
    }

    // Worked words: runs, and masks.
    #[test]
    fn words_of_descriptors(rt: HostRuntime) {
        assert!(rt; encode(Descriptor::Run { first: 0, count: 4 }) == 8193);
        assert!(rt; encode(Descriptor::Run { first: 1, count: 2 }) == 4105);
        assert!(rt; encode(Descriptor::Bitmap { bits: 1 }) == 10);
        assert!(rt; encode(Descriptor::Bitmap { bits: 5 }) == 42);
        assert!(rt; decode(8193) == Some(Descriptor::Run { first: 0, count: 4 }));
        assert!(rt; decode(1) == None);
        assert!(rt; decode(5) == Some(Descriptor::Ephemeron));
        assert!(rt; decode(6) == None);
        assert!(rt; decode(8) == None);
    }
}
