//! The sentences of a text, up to the first line that no text has.
ghost use Rattle.std.specs.Prelude.{◌≤◌, length, map, IfOk};
ghost use Rattle.sg_text.specs.Words.{lines_of};
ghost use Rattle.sg_text.specs.Reading.{sentence_of, IsScan};
ghost use Rattle.sg_text.specs.Laws.{HaveOneSaying};

use crate::line::Line;
use crate::lines::{MOST_WORDS, hear_line};
use std::alloc::{AllocError, Global};

/// How far the lines of a text were read. Lines are numbered from 1.
#[derive(Clone, Copy, Debug, PartialEq, Eq)]
pub enum Extent {
    /// To the end: there are so many lines, one more than line feeds.
    Whole { lines: u32 },
    /// Up to this line, the first one that no text has.
    Above { wrong: u32 },
}

/// The sentences of a text, up to the first line that no text has.
#[derive(Drop)]
pub struct Scanned<'a> {
    pub lines: Vec<Line<'a>>,
    /// The numbers of their lines, from 1.
    pub numbers: Vec<u32>,
    pub extent: Extent,
}

/// The sentences of a text, up to the first line that no text has. Linear in the bytes.
pub fn scan(alloc: Global, bytes: &[u8]) -> Result<Scanned<'_>, AllocError>
    requires { length bytes.now ≤ 1048576 }
    ensures { IfOk result (λ s. IsScan (lines_of bytes.now) s.numbers.items (map sentence_of s.lines.items) s.extent) }
{
    let mut lines = Vec::new(alloc);
    let mut numbers = Vec::new(alloc);
    let mut number = 0;
    let mut words: [&[u8]; MOST_WORDS] = [&[]; MOST_WORDS];
    let mut rest = Some(bytes);
    while let Some(from) = rest {
        number += 1;
        let Some(heard) = hear_line(from, &mut words) else {
            let extent = Extent::Above { wrong: number };
            return Ok(Scanned {
                lines,
                numbers,
                extent,
            });
        };
        if let Some(line) = heard.said {
            lines.push(line)?;
            numbers.push(number)?;
        }
        rest = heard.rest;
    }
    Ok(Scanned {
        lines,
        numbers,
        extent: Extent::Whole { lines: number },
    })
}

/// The law of one saying: the lines of a text say one thing at most. It does nothing; its contract is the law.
pub fn one_saying()
    ensures { HaveOneSaying }
{}
