// The top call over ends in memory: each kind of ending, each call that fails, each room, and worked programs.
use crate::{OpenGate, run};
use sg_io::{MemorySink, MemorySource};
use sg_words::{Addr, List};
use std::alloc::{AllocError, Global};
use std::test::Fail;

const PROGRAM: &str = "sgen 1\nclass Three plain 3\nmutator\nnew r0 Three\nend\n";

const TRACE: &str = "epoch 0\n0 0 4096\n0 done\nend\n";

// A list of two objects, of which the second one moves at a stop.
const STOPPING: &str =
    "sgen 1\nnursery 256\nblocks 2\npages 0\nclass Node map r.\nclass Box plain 2\nclass Tab run 4 0 4\nclass Big run 62 0 1\nclass Eph pair\nmutator\nnew r0 Node\nnew r1 Node\nput r0 0 r1\ndrop r1\ncollect minor\nget r1 r0 0\nend\n";

const STOPPED: &str =
    "epoch 0\n0 0 4096\n0 1 4128\n0 2 ok\n0 3 ok\n0 collect minor\nstop 0\nminor\npin 4096\nmove 4128 6144\nspares 0\nfrag 4128 252\nserve 0 4 ok\nepoch 1\n0 5 6144\n0 done\nend\n";

const USAGE: &str =
    "usage: sgenlab run\nusage: sgenlab replay N,N,N\nusage: sgenlab gen SEED SIZE\n";

const EMPTY: &str = "refused syntax 1\n";

const LONG: &str = "refused long\n";

fn words_of(alloc: Global, words: &[&str]) -> Result<Vec<String>, AllocError> {
    let mut all = Vec::new(alloc);
    for word in words {
        all.push(String::from_str(alloc, word)?)?;
    }
    Ok(all)
}

#[test]
fn each_ending(rt: HostRuntime) -> Result<(), Fail> {
    // words, input, failing reads, failing writes, the status, and what is taken
    let rows: [(&[&str], &str, &[u32], &[u32], u8, &str); 14] = [
        (&["run"], PROGRAM, &[], &[], 0, TRACE),
        (&["run"], PROGRAM, &[2], &[1], 0, TRACE),
        (&["run"], PROGRAM, &[0], &[], 3, ""),
        (&["run"], PROGRAM, &[1], &[], 3, ""),
        (&["run"], PROGRAM, &[], &[0], 4, ""),
        (&["run"], "", &[], &[], 2, EMPTY),
        (&["run"], "", &[1], &[1], 2, EMPTY),
        (&["run"], "", &[0], &[], 3, ""),
        (&["run"], "", &[], &[0], 4, ""),
        (&["run"], "sgen 1\nend\n", &[], &[], 2, "refused syntax 2\n"),
        (&[], PROGRAM, &[0], &[], 1, USAGE),
        (&["run", "now"], PROGRAM, &[0], &[1], 1, USAGE),
        (&["Run"], PROGRAM, &[], &[], 1, USAGE),
        (&["run", "now"], PROGRAM, &[], &[0], 4, ""),
    ];
    for (words, input, reads, writes, status, taken) in rows {
        let words = words_of(rt.alloc(), words)?;
        let mut source = MemorySource::new(rt.alloc(), input.as_bytes(), reads)?;
        let mut sink = MemorySink::new(rt.alloc(), 100, writes)?;
        let answer = run(
            &rt,
            rt.alloc(),
            words.as_slice(),
            &mut source,
            &mut sink,
            &OpenGate,
        );
        assert_eq!(rt; answer, status, "of {input} with {taken}");
        assert_eq!(rt; sink.taken(), taken.as_bytes(), "of {input} with {taken}");
    }
    Ok(())
}

#[test]
fn each_cause(rt: HostRuntime) -> Result<(), Fail> {
    let rows: [(&str, &str); 12] = [
        ("sgen 1\nmutator\nnum r0 01\nend\n", "refused syntax 3\n"),
        ("sgen 1\nmutator\nnew r0 A\nend", "refused class 3\n"),
        (
            "sgen 1\nclass A words\nmutator\nnew r0 A\nend\n",
            "refused class 4\n",
        ),
        (
            "sgen 1\nclass A plain 1\nclass A plain 1\nmutator\nend\n",
            "refused class 3\n",
        ),
        ("sgen 1\n", "refused limit 2 mutators\n"),
        (
            "sgen 1\nmutator\ngput 64 r0\nend\n",
            "refused limit 3 global\n",
        ),
        (
            "sgen 1\nmutator\nrepeat 1025\nrepeat 1024\nnum r0 0\nend\nend\nend\n",
            "refused limit 8 statements\n",
        ),
        (
            "sgen 1\nmutator\nrepeat 1025\nfinal r0\nend\nend\n",
            "refused limit 6 finals\n",
        ),
        (
            "sgen 1\nmutator\nwset 63 r0 short\nend\n",
            "refused later 3\n",
        ),
        (
            "sgen 1\nmutator\nend\nmutator\nend\nmutator\nend\nmutator\nend\nmutator\nend\nmutator\nend\nmutator\nend\nmutator\nend\nmutator\nend\nmutator\nend\nmutator\nend\nmutator\nend\nmutator\nend\nmutator\nend\nmutator\nend\nmutator\nend\nmutator\nend\n",
            "refused limit 34 mutators\n",
        ),
        (
            "sgen 1\nmutator\nnum r0 1\nsame r0 r1\nend\n",
            "refused kind 0 1\n",
        ),
        (
            "sgen 1\nmutator\nrepeat 2\nnum r0 1\ndrop r0\npush r0\nend\nend\n",
            "refused kind 0 2\n",
        ),
    ];
    let words = words_of(rt.alloc(), &["run"])?;
    for (input, line) in rows {
        let mut source = MemorySource::new(rt.alloc(), input.as_bytes(), &[])?;
        let mut sink = MemorySink::new(rt.alloc(), 100, &[])?;
        let answer = run(
            &rt,
            rt.alloc(),
            words.as_slice(),
            &mut source,
            &mut sink,
            &OpenGate,
        );
        assert_eq!(rt; answer, 2, "of {input}");
        assert_eq!(rt; sink.taken(), line.as_bytes(), "of {input}");
    }
    Ok(())
}

#[test]
fn each_room(rt: HostRuntime) -> Result<(), Fail> {
    let rows: [(&[&str], &str, u8, &str); 4] = [
        (&["run"], PROGRAM, 0, TRACE),
        (&["run"], STOPPING, 0, STOPPED),
        (&["run", "now"], PROGRAM, 1, USAGE),
        (&["run"], "", 2, EMPTY),
    ];
    for (words, input, status, line) in rows {
        let words = words_of(rt.alloc(), words)?;
        for room in 0..=line.len() {
            let mut source = MemorySource::new(rt.alloc(), input.as_bytes(), &[])?;
            let mut sink = MemorySink::new(rt.alloc(), room, &[])?;
            let answer = run(
                &rt,
                rt.alloc(),
                words.as_slice(),
                &mut source,
                &mut sink,
                &OpenGate,
            );
            let expected = if room < line.len() { 4 } else { status };
            assert_eq!(rt; answer, expected, "of {line} with room for {room}");
            assert_eq!(rt;
                sink.taken(),
                line.as_bytes().split_at(room).0,
                "of {line} with room for {room}"
            );
        }
    }
    Ok(())
}

#[test]
fn each_piece(rt: HostRuntime) -> Result<(), Fail> {
    // failing reads, failing writes, the status, and what is taken: the pieces before the write that fails
    let rows: [(&[u32], &[u32], u8, &str); 6] = [
        (&[], &[0], 4, ""),
        (
            &[],
            &[1],
            4,
            "epoch 0\n0 0 4096\n0 1 4128\n0 2 ok\n0 3 ok\n0 collect minor\n",
        ),
        (
            &[],
            &[2],
            4,
            "epoch 0\n0 0 4096\n0 1 4128\n0 2 ok\n0 3 ok\n0 collect minor\nstop 0\nminor\npin 4096\nmove 4128 6144\nspares 0\nfrag 4128 252\nserve 0 4 ok\n",
        ),
        (&[], &[3], 0, STOPPED),
        (&[0], &[], 3, ""),
        (&[1], &[], 3, ""),
    ];
    let words = words_of(rt.alloc(), &["run"])?;
    for (reads, writes, status, taken) in rows {
        let mut source = MemorySource::new(rt.alloc(), STOPPING.as_bytes(), reads)?;
        let mut sink = MemorySink::new(rt.alloc(), 1000, writes)?;
        let answer = run(
            &rt,
            rt.alloc(),
            words.as_slice(),
            &mut source,
            &mut sink,
            &OpenGate,
        );
        assert_eq!(rt; answer, status, "with {taken}");
        assert_eq!(rt; sink.taken(), taken.as_bytes(), "with {taken}");
    }
    Ok(())
}

#[test]
fn the_longest_input(rt: HostRuntime) -> Result<(), Fail> {
    let words = words_of(rt.alloc(), &["run"])?;
    for (length, status, taken) in [(1_048_576, 0, TRACE), (1_048_577, 2, LONG)] {
        let mut input = Vec::from_slice(rt.alloc(), PROGRAM.as_bytes())?;
        input.resize(length, b'\n')?;
        let mut source = MemorySource::new(rt.alloc(), input.as_slice(), &[])?;
        let mut sink = MemorySink::new(rt.alloc(), 100, &[])?;
        let answer = run(
            &rt,
            rt.alloc(),
            words.as_slice(),
            &mut source,
            &mut sink,
            &OpenGate,
        );
        assert_eq!(rt; answer, status, "of {length} bytes");
        assert_eq!(rt; sink.taken(), taken.as_bytes(), "of {length} bytes");
    }
    Ok(())
}

// What the worked programs begin with.
const HEAD: &str =
    "sgen 1\nnursery 256\nblocks 1\nclass Node map r.\nclass Box plain 2\nclass Row refs\nclass Odd plain 29\nclass Even plain 30\nclass Big plain 62\nclass Wide map rr..........................................................\nmutator\n";

#[test]
fn worked_programs(rt: HostRuntime) -> Result<(), Fail> {
    let rows: [(&str, &str); 11] = [
        // An address inside an object, at its last byte, pins it, and leads back to it.
        (
            "new r0 Box\nhide r1 r0 31\nhide r2 r0 32\nunhide r3 r2\ndrop r0\ncollect minor\nunhide r4 r1\nend\n",
            "epoch 0\n0 0 4096\n0 1 ok\n0 2 field\n0 3 nil\n0 4 ok\n0 collect minor\nstop 0\nminor\npin 4096\nspares 0\nfrag 4128 252\nserve 0 5 ok\nepoch 1\n0 6 4096\n0 done\nend\n",
        ),
        // A vector, what a repeat does, and what lies on a stack.
        (
            "newv r0 Row 2\nrepeat 2\nnew r1 Box\nput r0 0 r1\nend\npush r1\ndrop r1\ncollect minor\npop r1\nget r2 r0 0\nsame r1 r2\nend\n",
            "epoch 0\n0 0 4096\n0 1 4128\n0 2 ok\n0 3 4160\n0 4 ok\n0 5 ok\n0 6 ok\n0 collect minor\nstop 0\nminor\npin 4096\npin 4160\nspares 0\nwaste 4128 4\nfrag 4192 244\nserve 0 7 ok\nepoch 1\n0 8 ok\n0 9 4160\n0 10 yes\n0 done\nend\n",
        ),
        // An object that only another one refers to moves, and what the register holds stays.
        (
            "new r0 Node\nnew r1 Node\nput r0 0 r1\ndrop r1\ncollect minor\nget r1 r0 0\nend\n",
            "epoch 0\n0 0 4096\n0 1 4128\n0 2 ok\n0 3 ok\n0 collect minor\nstop 0\nminor\npin 4096\nmove 4128 6144\nspares 0\nfrag 4128 252\nserve 0 4 ok\nepoch 1\n0 5 6144\n0 done\nend\n",
        ),
        // A number pins the object whose last byte has that address.
        (
            "new r0 Box\nnew r1 Box\ndrop r0\ndrop r1\nnum r5 4127\ncollect minor\nend\n",
            "epoch 0\n0 0 4096\n0 1 4128\n0 2 ok\n0 3 ok\n0 4 ok\n0 collect minor\nstop 0\nminor\npin 4096\nspares 0\nfrag 4128 252\nserve 0 5 ok\nepoch 1\n0 done\nend\n",
        ),
        // One more, and it pins the object behind.
        (
            "new r0 Box\nnew r1 Box\ndrop r0\ndrop r1\nnum r5 4128\ncollect minor\nend\n",
            "epoch 0\n0 0 4096\n0 1 4128\n0 2 ok\n0 3 ok\n0 4 ok\n0 collect minor\nstop 0\nminor\npin 4128\nspares 0\nwaste 4096 4\nfrag 4160 248\nserve 0 5 ok\nepoch 1\n0 done\nend\n",
        ),
        // Behind the last object it pins nothing.
        (
            "new r0 Box\nnew r1 Box\ndrop r0\ndrop r1\nnum r5 4160\ncollect minor\nend\n",
            "epoch 0\n0 0 4096\n0 1 4128\n0 2 ok\n0 3 ok\n0 4 ok\n0 collect minor\nstop 0\nminor\nspares 0\nfrag 4096 256\nserve 0 5 ok\nepoch 1\n0 done\nend\n",
        ),
        // A gap of 31 words is waste.
        (
            "new r0 Odd\nnew r1 Box\ndrop r0\ncollect minor\nend\n",
            "epoch 0\n0 0 4096\n0 1 4344\n0 2 ok\n0 collect minor\nstop 0\nminor\npin 4344\nspares 0\nwaste 4096 31\nfrag 4376 221\nserve 0 3 ok\nepoch 1\n0 done\nend\n",
        ),
        // A gap of 32 is a fragment.
        (
            "new r0 Even\nnew r1 Box\ndrop r0\ncollect minor\nend\n",
            "epoch 0\n0 0 4096\n0 1 4352\n0 2 ok\n0 collect minor\nstop 0\nminor\npin 4352\nspares 0\nfrag 4096 32\nfrag 4384 220\nserve 0 3 ok\nepoch 1\n0 done\nend\n",
        ),
        // The nursery is full of objects that stay, so the one that asks gets a slot behind a major pause.
        (
            "new r0 Big\nnew r1 Big\nnew r2 Big\nnew r3 Big\nnew r3 Big\nget r4 r3 0\nend\n",
            "epoch 0\n0 0 4096\n0 1 4608\n0 2 5120\n0 3 5632\n0 need 64\nstop 0\nminor\npin 4096\npin 4608\npin 5120\npin 5632\nspares 0\nmajor 4 0\nserve 0 4 6144\nepoch 1\n0 5 field\n0 done\nend\n",
        ),
        // The room of what died serves the one that asks.
        (
            "new r0 Big\nnew r1 Big\nnew r2 Big\nnew r0 Big\nnew r0 Big\nend\n",
            "epoch 0\n0 0 4096\n0 1 4608\n0 2 5120\n0 3 5632\n0 need 64\nstop 0\nminor\npin 4608\npin 5120\npin 5632\nspares 0\nfrag 4096 64\nserve 0 4 4096\nepoch 1\n0 done\nend\n",
        ),
        // A chain moves to slots of 64 words; at the next pause the block has one left, so the one to which that leads stays.
        (
            "new r0 Wide\nnew r1 Wide\nput r0 0 r1\nnew r2 Wide\nput r1 0 r2\nnew r3 Wide\nput r2 0 r3\ndrop r1\ndrop r2\ndrop r3\ncollect minor\nget r1 r0 0\nnew r2 Wide\nput r0 1 r2\nnew r3 Wide\nput r2 0 r3\ndrop r2\ndrop r3\ncollect minor\nget r2 r0 1\nget r3 r2 0\nnew r4 Wide\nend\n",
            "epoch 0\n0 0 4096\n0 1 4608\n0 2 ok\n0 3 5120\n0 4 ok\n0 5 5632\n0 6 ok\n0 7 ok\n0 8 ok\n0 9 ok\n0 collect minor\nstop 0\nminor\npin 4096\nmove 4608 6144\nmove 5120 6656\nmove 5632 7168\nspares 0\nfrag 4592 194\nserve 0 10 ok\nepoch 1\n0 11 6144\n0 12 4592\n0 13 ok\n0 14 5104\n0 15 ok\n0 16 ok\n0 17 ok\n0 collect minor\nstop 1\nminor\npin 4096\nmove 4592 7680\nfail 5104\nspares 0\nfrag 4592 64\nfrag 5600 68\nmajor 6 0\nfrag 4592 64\nfrag 5600 68\nserve 0 18 ok\nepoch 2\n0 19 7680\n0 20 5104\n0 21 4592\n0 done\nend\n",
        ),
    ];
    let words = words_of(rt.alloc(), &["run"])?;
    for (rest, trace) in rows {
        let input = format!(in rt.alloc(); "{HEAD}{rest}")?;
        let mut source = MemorySource::new(rt.alloc(), input.as_bytes(), &[])?;
        let mut sink = MemorySink::new(rt.alloc(), 1000, &[])?;
        let answer = run(
            &rt,
            rt.alloc(),
            words.as_slice(),
            &mut source,
            &mut sink,
            &OpenGate,
        );
        assert_eq!(rt; answer, 0, "of {rest}");
        assert_eq!(rt; sink.taken(), trace.as_bytes(), "of {rest}");
    }
    Ok(())
}

// Turns by hand. Two mutators whose buffers hold one object each lose to each other in turn; a stop is asked for before and after another
// one has work to do; a mutator ends before and after another's request; 16 mutators use up the nursery, of which 15 have ended and
// pin nothing.
#[test]
fn each_schedule(rt: HostRuntime) -> Result<(), Fail> {
    let rows: [(&str, &str, &str); 6] = [
        (
            "0,1,1,0,1,0,1,0,0,1,1",
            "sgen 1\nnursery 256\nclass H plain 38\nmutator\nnew r0 H\nnew r0 H\nend\nmutator\nnew r0 H\nnew r0 H\nend\n",
            "epoch 0\n0 0 4608\n0 1 5120\n0 done\n1 0 4096\n1 1 5632\n1 done\nend\n",
        ),
        (
            "0",
            "sgen 1\nnursery 256\nmutator\ncollect minor\nend\nmutator\nnum r0 1\nnum r1 2\nend\n",
            "epoch 0\n0 collect minor\n1 yield\nstop 0\nminor\nspares 0\nfrag 4096 256\nserve 0 0 ok\nepoch 1\n0 done\n1 0 ok\n1 1 ok\n1 done\nend\n",
        ),
        (
            "3,1,0",
            "sgen 1\nnursery 256\nmutator\ncollect minor\nend\nmutator\nnum r0 1\nnum r1 2\nnum r1 3\nend\n",
            "epoch 0\n0 collect minor\n1 0 ok\n1 1 ok\n1 yield\nstop 0\nminor\nspares 0\nfrag 4096 256\nserve 0 0 ok\nepoch 1\n0 done\n1 2 ok\n1 done\nend\n",
        ),
        (
            "1,0,2",
            "sgen 1\nnursery 256\nmutator\ncollect minor\nend\nmutator\nend\nmutator\nnum r0 1\nend\n",
            "epoch 0\n0 collect minor\n1 done\n2 yield\nstop 0\nminor\nspares 0\nfrag 4096 256\nserve 0 0 ok\nepoch 1\n0 done\n2 0 ok\n2 done\nend\n",
        ),
        (
            "0,1,1,1,1",
            "sgen 1\nnursery 256\nmutator\ncollect minor\nend\nmutator\nend\nmutator\nnum r0 1\nend\n",
            "epoch 0\n0 collect minor\n1 done\n2 yield\nstop 0\nminor\nspares 0\nfrag 4096 256\nserve 0 0 ok\nepoch 1\n0 done\n2 0 ok\n2 done\nend\n",
        ),
        (
            "0",
            "sgen 1\nnursery 256\nbuffer 16\nclass W plain 14\nmutator\nnew r0 W\nend\nmutator\nnew r0 W\nend\nmutator\nnew r0 W\nend\nmutator\nnew r0 W\nend\nmutator\nnew r0 W\nend\nmutator\nnew r0 W\nend\nmutator\nnew r0 W\nend\nmutator\nnew r0 W\nend\nmutator\nnew r0 W\nend\nmutator\nnew r0 W\nend\nmutator\nnew r0 W\nend\nmutator\nnew r0 W\nend\nmutator\nnew r0 W\nend\nmutator\nnew r0 W\nend\nmutator\nnew r0 W\nend\nmutator\nnew r0 W\nnew r1 W\nend\n",
            "epoch 0\n0 0 4096\n0 done\n1 0 4224\n1 done\n2 0 4352\n2 done\n3 0 4480\n3 done\n4 0 4608\n4 done\n5 0 4736\n5 done\n6 0 4864\n6 done\n7 0 4992\n7 done\n8 0 5120\n8 done\n9 0 5248\n9 done\n10 0 5376\n10 done\n11 0 5504\n11 done\n12 0 5632\n12 done\n13 0 5760\n13 done\n14 0 5888\n14 done\n15 0 6016\n15 need 16\nstop 0\nminor\npin 6016\nspares 0\nfrag 4096 240\nserve 15 1 4096\nepoch 1\n15 done\nend\n",
        ),
    ];
    for (turns, input, trace) in rows {
        let words = words_of(rt.alloc(), &["replay", turns])?;
        let mut source = MemorySource::new(rt.alloc(), input.as_bytes(), &[])?;
        let mut sink = MemorySink::new(rt.alloc(), 4096, &[])?;
        let answer = run(
            &rt,
            rt.alloc(),
            words.as_slice(),
            &mut source,
            &mut sink,
            &OpenGate,
        );
        assert_eq!(rt; answer, 0, "of {turns} with {input}");
        assert_eq!(rt; sink.taken(), trace.as_bytes(), "of {turns} with {input}");
    }
    Ok(())
}
