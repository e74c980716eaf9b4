// What no clause says: that memory is found; and bytes that were worked out apart from this crate, by a model of the generator.
use crate::script;
use std::test::Fail;

// FNV-1a, with 64 bits.
fn checksum(bytes: &[u8]) -> u64 {
    let mut sum: u64 = 0xcbf2_9ce4_8422_2325;
    for byte in bytes {
        sum = (sum ^ *byte as u64).wrapping_mul(0x100_0000_01b3);
    }
    sum
}

// The whole text of one move for each mutator; a move of each kind is in it.
#[test]
fn a_move_of_each_kind(rt: HostRuntime) -> Result<(), Fail> {
    let want =
        b"sgen 1\nnursery 4096\nblocks 512\npages 64\nbuffer 64\nworkers 4\ncement 4\nclass Node map rr.\n\
mutator\ngget r2 14\ngetd r3 r2 2\nget r2 r2 0\ngetd r3 r2 2\nget r2 r2 0\ngetd r3 r2 2\nend\n\
mutator\nnew r0 Node\nnum r1 637\nputd r0 2 r1\ngget r2 31\nput r0 0 r2\ngput 31 r0\nend\n\
mutator\ngget r2 39\nget r2 r2 0\ngput 39 r2\ndrop r2\ndrop r0\nnum r3 0\nend\n\
mutator\ngget r2 63\nget r2 r2 0\ngput 63 r2\ndrop r2\ndrop r0\nnum r3 0\nend\n";
    let text = script(rt.alloc(), 7, 24)?;
    assert_eq!(rt; text.as_slice(), want.as_slice());
    Ok(())
}

// Seed and size; how the text goes on behind the settings; its length; its checksum.
#[test]
fn texts_of_seeds_and_sizes(rt: HostRuntime) -> Result<(), Fail> {
    let none = "mutator\nend\nmutator\nend\nmutator\nend\nmutator\nend\n";
    let zero =
        "mutator\nnew r0 Node\nnum r1 92\nputd r0 2 r1\ngget r2 13\nput r0 0 r2\ngput 13 r0\nnew r0 Node\nnum r1 907\n";
    let one =
        "mutator\ngget r2 14\ngetd r3 r2 2\nget r2 r2 0\ngetd r3 r2 2\nget r2 r2 0\ngetd r3 r2 2\nend\nmutator\n";
    let seven =
        "mutator\ngget r2 14\ngetd r3 r2 2\nget r2 r2 0\ngetd r3 r2 2\nget r2 r2 0\ngetd r3 r2 2\nnew r0 Node\nnum r1 637\nputd r0 2 r1\ngget r2 15\n";
    let high =
        "mutator\nnew r0 Node\nnum r1 667\nputd r0 2 r1\ngget r2 15\nput r0 0 r2\ngput 15 r0\nnew r0 Node\nnum r1 115\n";
    let last =
        "mutator\nnew r0 Node\nnum r1 69\nputd r0 2 r1\ngget r2 6\nput r0 0 r2\ngput 6 r0\ngget r2 5\nget r2 r2 0\ngput 5 r2\n";
    let rows: [(u64, u32, &str, usize, u64); 12] = [
        (7, 0, none, 136, 4_276_451_924_992_384_543),
        (7, 23, none, 136, 4_276_451_924_992_384_543),
        (7, 24, one, 398, 12_082_081_532_177_233_191),
        (7, 47, one, 398, 12_082_081_532_177_233_191),
        (7, 48, seven, 656, 4_993_715_414_478_530_136),
        (7, 20_000, seven, 226_691, 12_664_961_975_904_267_100),
        (0, 96, zero, 1_254, 16_802_948_450_188_543_098),
        (0, 80_000, zero, 905_486, 1_418_486_301_707_727_160),
        ((1 << 40) + 7, 96, high, 1_236, 5_556_958_988_609_079_375),
        (
            (1 << 40) + 7,
            20_000,
            high,
            226_878,
            8_412_806_269_944_649_016,
        ),
        (u64::MAX, 96, last, 1_246, 761_846_795_363_977_399),
        (u64::MAX, 20_000, last, 226_614, 236_349_535_648_346_132),
    ];
    let settings = 88;
    for (seed, size, first, length, sum) in rows {
        let text = script(rt.alloc(), seed, size)?;
        let text = text.as_slice();
        assert_eq!(rt; text.len(), length, "at {seed} {size}");
        assert!(rt;
            text[settings..].starts_with(first.as_bytes()),
            "at {seed} {size}"
        );
        assert_eq!(rt; checksum(text), sum, "at {seed} {size}");
    }
    Ok(())
}
