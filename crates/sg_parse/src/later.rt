//! What is of the language and isn't run yet.
ghost use Rattle.std.specs.Prelude.{◌≡◌, ◌↔◌, IsTrue, map, IfSome, IfNone};
ghost use Rattle.sg_desc.specs.declared.shapes.Descriptor.TheVariants.{Ephemeron};
ghost use Rattle.sg_limits.specs.Faults.{classes_in, IsLater, IsMisnamed, IsPairClass};
ghost use Rattle.sg_parse.specs.Names.{classes_of, AreNames, IsMadeLater, IsDoneLater, IsLaterBy};
ghost use Rattle.sg_text.specs.Reading.{maker_of, shape_in, sentence_of};
ghost use Rattle.sg_parse.specs.Indices.{HasNoneIn, IsFirstIn};

use crate::names::Names;
use sg_program::{Statement, limits};
use sg_text::{Cell, Form, Line, Maker};

/// Whether a class of this form is one of pairs.
fn has_pairs(form: &Form<'_>) -> bool
    ensures { IsTrue result ↔ ((shape_in form.now).kind ≡ Ephemeron) }
{
    match form {
        Form::Pair => true,
        Form::Plain { .. } | Form::Run { .. } | Form::Map { .. } | Form::Refs | Form::Words => {
            false
        }
    }
}

/// Whether the class of this name is one of pairs.
fn is_pair(names: &Names<'_>, name: &[u8]) -> bool
    ensures { IsTrue result ↔ IsPairClass (classes_of names.now) name.now }
{
    match names.form(name) {
        Some(form) => has_pairs(&form),
        None => false,
    }
}

/// Whether a line that makes an object so isn't run yet.
fn is_made_later(maker: &Maker, name: &[u8], names: &Names<'_>) -> bool
    ensures { IsTrue result ↔ IsMadeLater (classes_of names.now) (maker_of maker.now) name.now }
{
    match maker {
        Maker::Fixed | Maker::Mature => is_pair(names, name),
        Maker::Vector { count } => *count > limits::MOST_FIELDS,
    }
}

/// Whether a statement that names no class isn't run yet.
fn is_done_later(statement: &Statement) -> bool
    ensures { IsTrue result ↔ IsDoneLater statement.now }
{
    match statement {
        Statement::WSet { .. }
        | Statement::WGet { .. }
        | Statement::Final { .. }
        | Statement::NextFin { .. } => true,
        _ => false,
    }
}

/// Whether the line isn't run yet.
fn is_later(line: &Line<'_>, names: &Names<'_>) -> bool
    ensures { IsTrue result ↔ IsLaterBy (classes_of names.now) (sentence_of line.now) }
{
    match line {
        Line::Make { maker, name, .. } => is_made_later(maker, *name, names),
        Line::At {
            cell: Cell::WSet { .. } | Cell::WGet,
            ..
        } => true,
        Line::Do(statement) => is_done_later(statement),
        _ => false,
    }
}

/// The first line that isn't run yet. Linear in the lines, with the cost of looking up names.
pub(crate) fn later(lines: &[Line<'_>], names: &Names<'_>) -> Option<usize>
    requires names { AreNames names.now (classes_in (map sentence_of lines.now)) }
    requires named { HasNoneIn IsMisnamed (map sentence_of lines.now) }
    ensures found { IfSome result (IsFirstIn IsLater (map sentence_of lines.now)) }
    ensures none { IfNone result (HasNoneIn IsLater (map sentence_of lines.now)) }
{
    for (index, line) in lines.iter().enumerate() {
        if is_later(line, names) {
            return Some(index);
        }
    }
    None
}

#[cfg(test)]
mod tests {
    use super::*;
    use crate::names::{Named, name_classes};
    use std::alloc::{AllocError, Global};

    // The first line that misnames a class, or else the first one that isn't run yet.
    fn told(
        alloc: Global,
        lines: &[Line<'_>],
    ) -> Result<(Option<usize>, Option<usize>), AllocError> {
        match name_classes(alloc, lines)? {
            Named::Misnamed { index } => Ok((Some(index), None)),
            Named::Classes(names) => Ok((None, later(lines, &names))),
        }
    }

    fn make(maker: Maker, name: &[u8]) -> Line<'_> {
        Line::Make { maker, r: 0, name }
    }

    fn at<'a>(cell: Cell, place: u64) -> Line<'a> {
        Line::At { cell, r: 0, place }
    }

    #[test]
    fn first_lines_that_are_refused(rt: HostRuntime) -> Result<(), AllocError> {
        let plain = Line::Class {
            name: b"a",
            form: Form::Plain { fields: 3 },
        };
        let refs = Line::Class {
            name: b"v",
            form: Form::Refs,
        };
        let pair = Line::Class {
            name: b"p",
            form: Form::Pair,
        };
        let fixed = make(Maker::Fixed, b"a");
        let vector = make(Maker::Vector { count: 62 }, b"v");
        let wide = make(Maker::Vector { count: 63 }, b"v");
        let major = Line::Do(Statement::Collect { major: true });
        let minor = Line::Do(Statement::Collect { major: false });
        let sections = Line::Do(Statement::Sections);
        let registers = Line::Do(Statement::Final { r: 0 });
        let ready = Line::Do(Statement::NextFin { r: 0 });
        let begin = Line::Mutator;
        let put = at(Cell::GPut, 63);
        let get = at(Cell::GGet, 0);
        let link = at(Cell::WSet { long: true }, 63);
        let read = at(Cell::WGet, 0);
        let table = [
            (
                &[
                    plain, refs, pair, begin, fixed, vector, minor, major, sections,
                ][..],
                None,
                None,
            ),
            (&[plain, refs, plain, refs], Some(2), None),
            (&[begin, fixed, plain], Some(1), None),
            (
                &[plain, begin, make(Maker::Vector { count: 1 }, b"a")],
                Some(2),
                None,
            ),
            (&[refs, begin, make(Maker::Mature, b"v")], Some(2), None),
            (
                &[pair, begin, make(Maker::Fixed, b"p"), ready],
                None,
                Some(2),
            ),
            (
                &[pair, begin, make(Maker::Mature, b"p"), ready],
                None,
                Some(2),
            ),
            (
                &[plain, begin, make(Maker::Mature, b"a"), ready],
                None,
                Some(3),
            ),
            (&[refs, begin, vector, wide, ready], None, Some(3)),
            (&[begin, minor, Line::End, begin, registers], None, Some(4)),
            (
                &[begin, major, sections, Line::End, begin, ready],
                None,
                Some(5),
            ),
            (
                &[begin, put, get, Line::End, begin, get, put, minor],
                None,
                None,
            ),
            (&[begin, put, get, link], None, Some(3)),
            (&[begin, get, read, link], None, Some(2)),
        ];
        for (lines, misnamed, late) in table {
            assert!(rt; told(rt.alloc(), lines)? == (misnamed, late));
        }
        Ok(())
    }
}
