// Tallies and summaries, by hand.
ghost use Rattle.std.specs.Prelude.{◌≡◌, length, IfOk};

use crate::{Tally, append_summary, count_epoch, count_stop};
use sg_graph::{Answer, EpochReport, Leave, Part, Service, StopReport};
use sg_words::{Addr, List};
use std::alloc::{AllocError, Global};
use std::test::Fail;

const NONE: Tally = Tally {
    statements: 0,
    sum: 0,
};

fn part(alloc: Global, mutator: u32, answers: &[Answer]) -> Result<Part, AllocError>
    ensures { IfOk result (λ part. length part.answers ≡ length answers.now) }
{
    Ok(Part {
        mutator,
        first: 0,
        answers: List::from_vec(Vec::from_slice(alloc, answers)?),
        leave: Leave::Ended,
    })
}

// Mutators 0 and 2 have parts, mutator 1 has none: `nil`, `null` and an address count as statements and add nothing, and two numbers near 2^64
// add up past it.
#[test]
fn answers_of_an_epoch(rt: HostRuntime) -> Result<(), Fail> {
    let mut parts = Vec::new(rt.alloc());
    parts.push(part(
        rt.alloc(),
        0,
        &[
            Answer::At(Addr::at_word(512)),
            Answer::Number(7),
            Answer::Nil,
            Answer::Null,
            Answer::Number(5),
            Answer::Fine,
        ],
    )?)?;
    parts.push(part(
        rt.alloc(),
        2,
        &[Answer::Number(u64::MAX), Answer::Number(u64::MAX)],
    )?)?;
    let report = EpochReport {
        number: 0,
        last: false,
        parts: List::from_vec(parts),
    };
    let mut tallies = [NONE; 3];
    count_epoch(&mut tallies, &report);
    assert_eq!(rt;
        tallies[0],
        Tally {
            statements: 6,
            sum: 12
        }
    );
    assert_eq!(rt; tallies[1], NONE);
    assert_eq!(rt;
        tallies[2],
        Tally {
            statements: 2,
            sum: 36_893_488_147_419_103_230
        }
    );
    Ok(())
}

// A stop serves mutator 1 an address and mutator 0 a `full`.
#[test]
fn answers_of_a_stop(rt: HostRuntime) -> Result<(), Fail> {
    let mut served = Vec::new(rt.alloc());
    served.push(Service {
        mutator: 0,
        statement: 3,
        answer: Answer::Full,
        sections: None,
    })?;
    served.push(Service {
        mutator: 1,
        statement: 9,
        answer: Answer::Number(9),
        sections: None,
    })?;
    let report = StopReport {
        number: 0,
        minor: None,
        major: None,
        served: List::from_vec(served),
    };
    let mut tallies = [
        Tally {
            statements: 3,
            sum: 4,
        },
        Tally {
            statements: 9,
            sum: 1,
        },
    ];
    count_stop(&mut tallies, &report);
    assert_eq!(rt;
        tallies[0],
        Tally {
            statements: 4,
            sum: 4
        }
    );
    assert_eq!(rt;
        tallies[1],
        Tally {
            statements: 10,
            sum: 10
        }
    );
    Ok(())
}

#[test]
fn text_of_a_summary(rt: HostRuntime) -> Result<(), Fail> {
    let mut out = Vec::new(rt.alloc());
    out.push(b'>')?;
    let tallies = [
        Tally {
            statements: 6,
            sum: 12,
        },
        Tally {
            statements: 10,
            sum: 36_893_488_147_419_103_230,
        },
    ];
    append_summary(&mut out, u64::MAX, 24, &tallies)?;
    assert_eq!(rt;
        out.as_slice(),
        b">gen 18446744073709551615 24\nmutator 0 statements 6 sum 12\nmutator 1 statements 10 sum 36893488147419103230\nend\n".as_slice()
    );
    Ok(())
}
