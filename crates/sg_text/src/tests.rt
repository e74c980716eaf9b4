// What lines say, and the sentences of a text with their numbers.
use crate::line::{Cell, Form, Line, Maker, Setting};
use crate::lines::{Heard, MOST_WORDS, hear_line};
use crate::scanner::{Extent, scan};
use sg_program::Statement;
use std::test::Fail;

/// What a line says; nothing where no text has it.
fn heard(text: &str) -> Option<Heard<'_>> {
    let mut words: [&[u8]; MOST_WORDS] = [&[]; MOST_WORDS];
    hear_line(text.as_bytes(), &mut words)
}

/// What a line says; nothing where it has no words, or where no text has it.
fn said(text: &str) -> Option<Line<'_>> {
    heard(text)?.said
}

#[test]
fn lines_say_what_their_words_do(rt: HostRuntime) {
    let statements = [
        (
            "put r0 1 r2",
            Statement::Put {
                r: 0,
                field: 1,
                s: 2,
            },
        ),
        (
            "get r3 r4 5",
            Statement::Get {
                d: 3,
                r: 4,
                field: 5,
            },
        ),
        (
            "putd r6 7 r8",
            Statement::PutD {
                r: 6,
                field: 7,
                s: 8,
            },
        ),
        (
            "getd r9 r10 11",
            Statement::GetD {
                d: 9,
                r: 10,
                field: 11,
            },
        ),
        (
            "num r12 18446744073709551615",
            Statement::Num {
                d: 12,
                n: 18446744073709551615,
            },
        ),
        ("move r13 r14", Statement::Move { d: 13, s: 14 }),
        (
            "hide r15 r0 8 # a pinned object",
            Statement::Hide {
                d: 15,
                s: 0,
                offset: 8,
            },
        ),
        ("unhide r1 r2", Statement::Unhide { d: 1, s: 2 }),
        ("drop r3", Statement::Drop { r: 3 }),
        ("push r4", Statement::Push { r: 4 }),
        ("pop r5", Statement::Pop { r: 5 }),
        ("final r6", Statement::Final { r: 6 }),
        ("nextfin r7", Statement::NextFin { r: 7 }),
        ("same r8 r9", Statement::Same { r: 8, s: 9 }),
        ("collect minor", Statement::Collect { major: false }),
        ("\tcollect  major\r", Statement::Collect { major: true }),
        ("sections", Statement::Sections),
    ];
    for (text, statement) in statements {
        assert_eq!(rt; said(text), Some(Line::Do(statement)), "at {text}");
    }
}

#[test]
fn other_lines_say_theirs(rt: HostRuntime) {
    let name = b"Pair_2".as_slice();
    let lines = [
        ("sgen 1", Line::Head),
        (
            "nursery 4096",
            Line::Setting {
                setting: Setting::Nursery,
                n: 4096,
            },
        ),
        (
            "cement 0",
            Line::Setting {
                setting: Setting::Cement,
                n: 0,
            },
        ),
        (
            "class Pair_2 plain 63",
            Line::Class {
                name,
                form: Form::Plain { fields: 63 },
            },
        ),
        (
            "class Pair_2 run 4 1 2",
            Line::Class {
                name,
                form: Form::Run {
                    fields: 4,
                    first: 1,
                    count: 2,
                },
            },
        ),
        (
            "class Pair_2 map r..r",
            Line::Class {
                name,
                form: Form::Map {
                    mask: b"r..r".as_slice(),
                },
            },
        ),
        (
            "class Pair_2 refs",
            Line::Class {
                name,
                form: Form::Refs,
            },
        ),
        (
            "class Pair_2 words",
            Line::Class {
                name,
                form: Form::Words,
            },
        ),
        (
            "class Pair_2 pair",
            Line::Class {
                name,
                form: Form::Pair,
            },
        ),
        ("mutator", Line::Mutator),
        ("repeat 10", Line::Repeat { times: 10 }),
        ("end", Line::End),
        (
            "new r1 Pair_2",
            Line::Make {
                maker: Maker::Fixed,
                r: 1,
                name,
            },
        ),
        (
            "newv r2 Pair_2 3",
            Line::Make {
                maker: Maker::Vector { count: 3 },
                r: 2,
                name,
            },
        ),
        (
            "mature r4 Pair_2",
            Line::Make {
                maker: Maker::Mature,
                r: 4,
                name,
            },
        ),
        (
            "gput 5 r6",
            Line::At {
                cell: Cell::GPut,
                r: 6,
                place: 5,
            },
        ),
        (
            "gget r7 8",
            Line::At {
                cell: Cell::GGet,
                r: 7,
                place: 8,
            },
        ),
        (
            "wset 9 r10 short",
            Line::At {
                cell: Cell::WSet { long: false },
                r: 10,
                place: 9,
            },
        ),
        (
            "wset 11 r12 long",
            Line::At {
                cell: Cell::WSet { long: true },
                r: 12,
                place: 11,
            },
        ),
        (
            "wget r13 14",
            Line::At {
                cell: Cell::WGet,
                r: 13,
                place: 14,
            },
        ),
    ];
    for (text, expected) in lines {
        assert_eq!(rt; said(text), Some(expected), "at {text}");
    }
}

#[test]
fn wrong_lines_are_told(rt: HostRuntime) {
    let wrong = [
        "sgen 2",
        "sgen 1 1",
        "repeat 01",
        "repeat 18446744073709551616",
        "repeat +1",
        "drop r16",
        "drop r01",
        "drop R1",
        "class 2a refs",
        "class a-b refs",
        "class map refs 1",
        "class a map",
        "class a map r,r",
        "class a plain",
        "new r1 aaaaaaaaaaaaaaaaaaaaaaaaaaaaaaaaa",
        "wset 0 r1 middle",
        "collect both",
        "collect",
        "put r0 r1 r2",
        "end end",
        "class a run 4 1 2 3",
        "class a run 4 1 2 3 4",
        "Mutator",
        "nurser 1",
        "drop r1 \x7f",
    ];
    for text in wrong {
        assert!(rt; heard(text).is_none(), "at {text}");
    }
}

#[test]
fn a_text_is_scanned_to_its_first_wrong_line(rt: HostRuntime) -> Result<(), Fail> {
    let text = b"# about \xff this\nsgen 1\n\n \t\r\nmutator # \x01\nend";
    let whole = scan(rt.alloc(), text.as_slice())?;
    assert_eq!(rt;
        whole.lines.as_slice(),
        [Line::Head, Line::Mutator, Line::End].as_slice()
    );
    assert_eq!(rt; whole.numbers.as_slice(), [2, 5, 6].as_slice());
    assert_eq!(rt; whole.extent, Extent::Whole { lines: 6 });

    let text = b"sgen 1\nmutator\nsgen \x01 1\nnonsense\n";
    let part = scan(rt.alloc(), text.as_slice())?;
    assert_eq!(rt;
        part.lines.as_slice(),
        [Line::Head, Line::Mutator].as_slice()
    );
    assert_eq!(rt; part.numbers.as_slice(), [1, 2].as_slice());
    assert_eq!(rt; part.extent, Extent::Above { wrong: 3 });

    let none = scan(rt.alloc(), b"".as_slice())?;
    assert!(rt; none.lines.is_empty());
    assert_eq!(rt; none.extent, Extent::Whole { lines: 1 });
    Ok(())
}
