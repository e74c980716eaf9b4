// What whole texts come to.
use crate::program::parse;
use sg_program::total;
use std::alloc::{AllocError, Global};
use std::test::Fail;

/// What a text comes to: the words of the nursery and the statements, or the refusal.
fn told(alloc: Global, text: &str) -> Result<String, AllocError> {
    match parse(alloc, text.as_bytes()) {
        Ok(program) => format!(in alloc; "{} {}", program.config.nursery, total(&program)),
        Err(refusal) => format!(in alloc; "{refusal:?}"),
    }
}

// The words of the nursery and the statements of a text, or how it is refused.
#[test]
fn texts_are_read_or_refused(rt: HostRuntime) -> Result<(), Fail> {
    let rows: [(&str, &str); 27] = [
        ("sgen 1\nmutator\nend\n", "4096 0"),
        (
            "sgen 1\nnursery 512\nclass A plain 2\nmutator\nnew r0 A\nrepeat 3\ndrop r3\nrepeat 3\nend\nend\nend\n",
            "512 4",
        ),
        (
            "sgen 1\nclass P pair\nclass A refs\nmutator\nnewv r0 A 62\nend\n",
            "4096 1",
        ),
        (
            "sgen 1\nmutator\nrepeat 1048576\ndrop r3\nend\nend\n",
            "4096 1048576",
        ),
        ("", "Syntax { line: 1 }"),
        ("sgen 1\nmutator\nend\nend\n", "Syntax { line: 4 }"),
        ("sgen 1\nmutator\nrepeat 2\nend\n", "Syntax { line: 5 }"),
        (
            "sgen 1\nmutator\nend\ndrop r1 \x01\nend\n",
            "Syntax { line: 4 }",
        ),
        (
            "sgen 1\nnursery 100\nmutator\nnew r0 A\nend\n",
            "Class { line: 4 }",
        ),
        ("sgen 1\nclass A refs\nclass A refs\n", "Class { line: 3 }"),
        (
            "sgen 1\nclass A refs\nmutator\nnew r0 A\nend\n",
            "Class { line: 4 }",
        ),
        (
            "sgen 1\nclass P pair\nmutator\nnew r0 P\nend\n",
            "Later { line: 4 }",
        ),
        (
            "sgen 1\nclass P pair\nmutator\nmature r0 P\nend\n",
            "Later { line: 4 }",
        ),
        (
            "sgen 1\nclass P pair\nclass A plain 3\nmutator\nmature r0 A\nmature r1 A\nend\n",
            "4096 2",
        ),
        (
            "sgen 1\nmutator\ngput 63 r1\ngget r2 0\nend\nmutator\ngget r3 63\nend\n",
            "4096 3",
        ),
        (
            "sgen 1\nmutator\ngput 0 r1\nwset 0 r1 short\nend\n",
            "Later { line: 4 }",
        ),
        (
            "sgen 1\nmutator\nend\nmutator\ncollect major\nsections\nend\n",
            "4096 2",
        ),
        (
            "sgen 1\nmutator\ncollect major\nend\nmutator\nsections\nfinal r1\nend\n",
            "Later { line: 7 }",
        ),
        ("sgen 1\n", "Limit { line: 2, which: Mutators }"),
        (
            "sgen 1\nnursery 100\nclass A plain 63\n",
            "Limit { line: 2, which: Nursery }",
        ),
        (
            "sgen 1\nclass A plain 63\nmutator\nrepeat 0\nend\nend\n",
            "Limit { line: 2, which: Fields }",
        ),
        (
            "sgen 1\nmutator\nrepeat 1\nrepeat 1\nrepeat 1\nrepeat 1\nrepeat 0\nend\nend\nend\nend\nend\nend\n",
            "Limit { line: 7, which: Times }",
        ),
        (
            "sgen 1\nmutator\nrepeat 1\nrepeat 1\nrepeat 1\nrepeat 1\nrepeat 1\nend\nend\nend\nend\nend\nend\n",
            "Limit { line: 7, which: Nesting }",
        ),
        (
            "sgen 1\nmutator\nrepeat 1048576\ndrop r3\nend\ndrop r3\nend\nmutator\nrepeat 0\nend\nend\n",
            "Limit { line: 7, which: Statements }",
        ),
        (
            "sgen 1\nmutator\nrepeat 1048575\ndrop r3\nend\nend\nmutator\ndrop r3\nend\n",
            "4096 1048576",
        ),
        (
            "sgen 1\nmutator\nrepeat 1048575\ndrop r3\nend\nend\nmutator\ndrop r3\ndrop r3\nend\n",
            "Limit { line: 10, which: Statements }",
        ),
        (
            "sgen 1\nmutator\nrepeat 1024\nfinal r1\nend\nend\nmutator\nfinal r1\nend\n",
            "Limit { line: 9, which: Finals }",
        ),
    ];
    for (text, answer) in rows {
        let read = told(rt.alloc(), text)?;
        assert_eq!(rt; read.as_str(), answer, "of {text}");
    }
    Ok(())
}

// Texts of one line behind the head, each of which breaks one limit alone: the line is told with it.
#[test]
fn each_limit_is_told(rt: HostRuntime) -> Result<(), Fail> {
    let rows: [(&str, &str); 13] = [
        ("nursery 65600", "Limit { line: 2, which: Nursery }"),
        ("nursery 257", "Limit { line: 2, which: Nursery }"),
        ("blocks 0", "Limit { line: 2, which: Blocks }"),
        ("pages 1025", "Limit { line: 2, which: Pages }"),
        ("buffer 15", "Limit { line: 2, which: Buffer }"),
        ("workers 9", "Limit { line: 2, which: Workers }"),
        ("cement 1001", "Limit { line: 2, which: Cement }"),
        ("class A run 3 2 2", "Limit { line: 2, which: Fields }"),
        (
            "class V refs\nmutator\nnewv r0 V 131071\nend",
            "Limit { line: 4, which: Vector }",
        ),
        (
            "mutator\ngput 64 r1\nend",
            "Limit { line: 3, which: Global }",
        ),
        (
            "mutator\ngget r1 64\nend",
            "Limit { line: 3, which: Global }",
        ),
        ("mutator\nwget r1 64\nend", "Limit { line: 3, which: Weak }"),
        (
            "mutator\nrepeat 1025\nfinal r1\nend\nend",
            "Limit { line: 6, which: Finals }",
        ),
    ];
    for (lines, answer) in rows {
        let text = format!(in rt.alloc(); "sgen 1\n{lines}\n")?;
        let read = told(rt.alloc(), text.as_str())?;
        assert_eq!(rt; read.as_str(), answer, "of {lines}");
    }
    Ok(())
}

// How a text is refused that begins so and goes on with a line so many times.
fn told_many(alloc: Global, start: &str, line: &str, many: usize) -> Result<String, AllocError> {
    let mut text = String::from_str(alloc, start)?;
    for _ in 0..many {
        text.push_str(line)?;
    }
    told(alloc, text.as_str())
}

// Sixteen mutators, and a seventeenth one.
#[test]
fn mutators_are_limited(rt: HostRuntime) -> Result<(), Fail> {
    let most = told_many(rt.alloc(), "sgen 1\n", "mutator\ndrop r0\nend\n", 16)?;
    assert_eq!(rt; most.as_str(), "4096 16");
    let mutators = told_many(rt.alloc(), "sgen 1\n", "mutator\nend\n", 17)?;
    assert_eq!(rt; mutators.as_str(), "Limit { line: 34, which: Mutators }");
    Ok(())
}
