// The text of reports, against worked values.
use crate::{append_epoch, append_stop};
use sg_graph::{
    Answer, BlockLine, EpochReport, Leave, MajorReport, MinorReport, Part, Request, Sections,
    Service, StopReport,
};
use sg_words::{Addr, List, Move, Piece};
use std::alloc::{AllocError, Global};
use std::test::Fail;

fn part(alloc: Global, mutator: u32, first: u32, answers: &[Answer]) -> Result<Part, AllocError> {
    let answers = List::from_vec(Vec::from_slice(alloc, answers)?);
    Ok(Part {
        mutator,
        first,
        answers,
        leave: Leave::Ended,
    })
}

fn asking(alloc: Global, mutator: u32, request: Request) -> Part {
    Part {
        mutator,
        first: 0,
        answers: List::from_vec(Vec::new(alloc)),
        leave: Leave::Wants(request),
    }
}

#[test]
fn text_of_an_epoch(rt: HostRuntime) -> Result<(), Fail> {
    let address = Addr::of(4_128).ok_or("an address")?;
    let found = [
        Answer::At(address),
        Answer::Nil,
        Answer::Null,
        Answer::Number(u64::MAX),
        Answer::Fine,
        Answer::Field,
        Answer::Full,
    ];
    let mut parts = Vec::new(rt.alloc());
    parts.push(part(rt.alloc(), 0, 9, &found)?)?;
    parts.push(part(rt.alloc(), 12, u32::MAX, &[Answer::Number(0), Answer::Fine])?)?;
    parts.push(part(rt.alloc(), 15, 3, &[Answer::Yes, Answer::No])?)?;
    parts.push(asking(rt.alloc(), 1, Request::Need { words: 64 }))?;
    parts.push(asking(rt.alloc(), 2, Request::Minor))?;
    parts.push(asking(rt.alloc(), 3, Request::Slot { size: 16 }))?;
    parts.push(asking(rt.alloc(), 4, Request::Major))?;
    parts.push(asking(rt.alloc(), 5, Request::Sections))?;
    let mut report = EpochReport {
        number: 30,
        last: false,
        parts: List::from_vec(parts),
    };
    let expected =
        "epoch 30\n0 9 4128\n0 10 nil\n0 11 null\n0 12 18446744073709551615\n0 13 ok\n0 14 field\n0 15 full\n0 done\n\
        12 4294967295 0\n12 4294967296 ok\n12 done\n15 3 yes\n15 4 no\n15 done\n\
        1 need 64\n2 collect minor\n3 slot 16\n4 collect major\n5 sections\n";
    let mut out = Vec::new(rt.alloc());
    append_epoch(rt.alloc(), &mut out, &report)?;
    assert_eq!(rt; out.as_slice(), expected.as_bytes());
    report.last = true;
    append_epoch(rt.alloc(), &mut out, &report)?;
    let twice = format!(in rt.alloc(); "{expected}{expected}end\n")?;
    assert_eq!(rt; out.as_slice(), twice.as_bytes());
    Ok(())
}

fn sections(alloc: Global) -> Result<Sections, AllocError> {
    let blocks = [
        BlockLine {
            block: 0,
            size: 4,
            used: 61,
        },
        BlockLine {
            block: 12,
            size: 64,
            used: 1,
        },
    ];
    Ok(Sections {
        young: 7,
        young_words: 21,
        blocks: List::from_vec(Vec::from_slice(alloc, &blocks)?),
    })
}

fn served_by(mutator: u32, statement: u32, answer: Answer, sections: Option<Sections>) -> Service {
    Service {
        mutator,
        statement,
        answer,
        sections,
    }
}

#[test]
fn text_of_a_stop(rt: HostRuntime) -> Result<(), Fail> {
    let a = Addr::of(4096).ok_or("an address")?;
    let b = Addr::of(6144).ok_or("an address")?;
    let pins = List::from_vec(Vec::from_slice(rt.alloc(), &[a])?);
    let moves = [Move {
        from: a.plus(4),
        to: b,
    }];
    let pieces = [
        Piece::Frag { at: a, words: 252 },
        Piece::Waste { at: b, words: 31 },
    ];
    let pause = MinorReport {
        pins,
        moves: List::from_vec(Vec::from_slice(rt.alloc(), &moves)?),
        fails: List::from_vec(Vec::from_slice(rt.alloc(), &[b.plus(4)])?),
        spares: 0,
        pieces: List::from_vec(Vec::from_slice(rt.alloc(), &pieces)?),
    };
    let left = [
        Piece::Waste { at: a, words: 8 },
        Piece::Frag { at: b, words: 64 },
    ];
    let behind = MajorReport {
        kept: 12,
        freed: 305,
        pieces: List::from_vec(Vec::from_slice(rt.alloc(), &left)?),
    };
    let mut served = Vec::new(rt.alloc());
    served.push(served_by(0, 4, Answer::Fine, None))?;
    served.push(served_by(2, 9, Answer::Fine, Some(sections(rt.alloc())?)))?;
    served.push(served_by(3, 17, Answer::Full, None))?;
    let mut report = StopReport {
        number: 0,
        minor: Some(pause),
        major: Some(behind),
        served: List::from_vec(served),
    };
    let lines =
        "minor\npin 4096\nmove 4128 6144\nfail 6176\nspares 0\nfrag 4096 252\nwaste 6144 31\n";
    let more = "major 12 305\nwaste 4096 8\nfrag 6144 64\n";
    let answers =
        "serve 0 4 ok\nnursery 7 21\nblock 0 4 61\nblock 12 64 1\nserve 2 9 ok\nserve 3 17 full\n";
    let mut out = Vec::new(rt.alloc());
    append_stop(rt.alloc(), &mut out, &report)?;
    let whole = format!(in rt.alloc(); "stop 0\n{lines}{more}{answers}")?;
    assert_eq!(rt; out.as_slice(), whole.as_bytes());
    report.minor = None;
    report.major = None;
    append_stop(rt.alloc(), &mut out, &report)?;
    let both = format!(in rt.alloc(); "{whole}stop 0\n{answers}")?;
    assert_eq!(rt; out.as_slice(), both.as_bytes());
    Ok(())
}
