//! Whether sentences stand in the order that the grammar gives them.
ghost use Rattle.std.specs.Prelude.{◌≡◌, ℕ, suc, ◌^◌, ◌<◌, ◌≤◌, length, map, take, slice_get};
ghost use Rattle.sg_text.specs.Reading.{sentence_of};
ghost use Rattle.sg_grammar.specs.Text.{IsWholeText, IsPrefix, CanGoOn};
ghost use Rattle.sg_grammar.specs.Order.{index_of, marked, from_start, from_settings, from_classes, from_within, from_outside, next, depth_of, may_end_at};
ghost use Rattle.sg_grammar.specs.declared.order.Order.TheVariants.{Whole, Unfinished, Misplaced};

use sg_text::{Line, Setting};

/// Whether sentences are a whole text.
#[derive(Clone, Copy, Debug, PartialEq, Eq)]
pub enum Order {
    /// They are.
    Whole,
    /// They are the beginning of one.
    Unfinished,
    /// The sentence with this index is the first with which they are no beginning of a text.
    Misplaced { index: usize },
}

/// Where a reader of sentences stands.
#[derive(Clone, Copy)]
enum Place {
    /// Before the head.
    Start,
    /// Behind the head or a setting, with the settings that were given so far.
    Settings { given: [bool; 6] },
    /// Behind a class.
    Classes,
    /// In a mutator, in this many repeats.
    Within { depth: usize },
    /// Behind the end of a mutator.
    Outside,
}

/// The place of a setting among the six.
fn index_of(setting: Setting) -> usize
    ensures value { result ≡ index_of setting }
    ensures below { result < 6 }
{
    match setting {
        Setting::Nursery => 0,
        Setting::Blocks => 1,
        Setting::Pages => 2,
        Setting::Buffer => 3,
        Setting::Workers => 4,
        Setting::Cement => 5,
    }
}

/// The place behind a setting, if it isn't given yet.
fn mark(given: [bool; 6], setting: Setting) -> Option<Place>
    ensures { result ≡ marked given (index_of setting) (slice_get given (index_of setting)) }
{
    let at = index_of(setting);
    if given[at] {
        return None;
    }
    let mut more = given;
    more[at] = true;
    Some(Place::Settings { given: more })
}

/// The place behind a line that stands first.
fn at_start(line: &Line<'_>) -> Option<Place>
    ensures { result ≡ from_start (sentence_of line.now) }
{
    match line {
        Line::Head => Some(Place::Settings { given: [false; 6] }),
        _ => None,
    }
}

/// The place behind a line that follows the head or a setting.
fn in_settings(given: [bool; 6], line: &Line<'_>) -> Option<Place>
    ensures { result ≡ from_settings given (sentence_of line.now) }
{
    match line {
        Line::Setting { setting, .. } => mark(given, *setting),
        Line::Class { .. } => Some(Place::Classes),
        Line::Mutator => Some(Place::Within { depth: 0 }),
        _ => None,
    }
}

/// The place behind a line that follows a class.
fn in_classes(line: &Line<'_>) -> Option<Place>
    ensures { result ≡ from_classes (sentence_of line.now) }
{
    match line {
        Line::Class { .. } => Some(Place::Classes),
        Line::Mutator => Some(Place::Within { depth: 0 }),
        _ => None,
    }
}

/// The place behind a line in a mutator.
fn within(depth: usize, line: &Line<'_>) -> Option<Place>
    requires { suc depth < 2 ^ 64 }
    ensures { result ≡ from_within depth (sentence_of line.now) }
{
    match line {
        Line::Repeat { .. } => Some(Place::Within { depth: depth + 1 }),
        Line::End if depth == 0 => Some(Place::Outside),
        Line::End => Some(Place::Within { depth: depth - 1 }),
        Line::Make { .. } | Line::At { .. } | Line::Do(_) => Some(Place::Within { depth }),
        _ => None,
    }
}

/// The place behind a line that follows the end of a mutator.
fn outside(line: &Line<'_>) -> Option<Place>
    ensures { result ≡ from_outside (sentence_of line.now) }
{
    match line {
        Line::Mutator => Some(Place::Within { depth: 0 }),
        _ => None,
    }
}

/// The place behind a line, if it may stand there.
fn step(place: Place, line: &Line<'_>) -> Option<Place>
    requires { suc (depth_of place) < 2 ^ 64 }
    ensures { result ≡ next place (sentence_of line.now) }
{
    match place {
        Place::Start => at_start(line),
        Place::Settings { given } => in_settings(given, line),
        Place::Classes => in_classes(line),
        Place::Within { depth } => within(depth, line),
        Place::Outside => outside(line),
    }
}

/// Whether a text may end here.
fn may_end(place: Place) -> bool
    ensures { result ≡ may_end_at place }
{
    match place {
        Place::Settings { .. } | Place::Classes | Place::Outside => true,
        Place::Start | Place::Within { .. } => false,
    }
}

/// Whether the lines stand in the order of a whole text. Linear in the lines.
pub fn order_of(lines: &[Line<'_>]) -> Order
    ensures whole { result ≡ Whole → IsWholeText (map sentence_of lines.now) }
    ensures unfinished { result ≡ Unfinished → IsPrefix (map sentence_of lines.now) × ¬ IsWholeText (map sentence_of lines.now) }
    ensures misplaced { (i : ℕ) → result ≡ Misplaced i → (i < length lines.now) × IsPrefix (take i (map sentence_of lines.now)) × ¬ CanGoOn (take (suc i) (map sentence_of lines.now)) }
{
    let mut place = Place::Start;
    for (index, line) in lines.iter().enumerate() {
        match step(place, line) {
            Some(next) => place = next,
            None => return Order::Misplaced { index },
        }
    }
    if may_end(place) {
        return Order::Whole;
    }
    Order::Unfinished
}

#[cfg(test)]
mod tests {
    use super::{Order, order_of};
    use sg_program::Statement;
    use sg_text::{Form, Line, Setting};
    use std::alloc::Global;
    use std::test::Fail;

    const PAIR: Line<'static> = Line::Class {
        name: b"Pair",
        form: Form::Pair,
    };

    const PUSH: Line<'static> = Line::Do(Statement::Push { r: 0 });

    const REPEAT: Line<'static> = Line::Repeat { times: 3 };

    fn setting(setting: Setting) -> Line<'static> {
        Line::Setting { setting, n: 7 }
    }

    #[test]
    fn texts_that_are_whole(rt: HostRuntime) {
        assert!(rt; order_of(&[Line::Head]) == Order::Whole);
        assert!(rt;
            order_of(&[
                Line::Head,
                setting(Setting::Cement),
                setting(Setting::Nursery),
                PAIR
            ]) == Order::Whole
        );
        assert!(rt;
            order_of(&[
                Line::Head,
                Line::Mutator,
                Line::End,
                Line::Mutator,
                Line::End
            ]) == Order::Whole
        );
        assert!(rt;
            order_of(&[
                Line::Head,
                PAIR,
                PAIR,
                Line::Mutator,
                REPEAT,
                PUSH,
                Line::End,
                PUSH,
                Line::End
            ]) == Order::Whole
        );
    }

    #[test]
    fn texts_that_are_unfinished(rt: HostRuntime) {
        assert!(rt; order_of(&[]) == Order::Unfinished);
        assert!(rt; order_of(&[Line::Head, Line::Mutator]) == Order::Unfinished);
        assert!(rt;
            order_of(&[Line::Head, Line::Mutator, REPEAT, PUSH, Line::End]) == Order::Unfinished
        );
    }

    #[test]
    fn sentences_that_are_misplaced(rt: HostRuntime) {
        let first = Order::Misplaced { index: 0 };
        let second = Order::Misplaced { index: 1 };
        let third = Order::Misplaced { index: 2 };
        let fourth = Order::Misplaced { index: 3 };
        assert!(rt; order_of(&[Line::Mutator, Line::End]) == first);
        assert!(rt; order_of(&[Line::Head, Line::Head]) == second);
        assert!(rt; order_of(&[Line::Head, PUSH]) == second);
        assert!(rt;
            order_of(&[
                Line::Head,
                setting(Setting::Nursery),
                setting(Setting::Nursery)
            ]) == third
        );
        assert!(rt; order_of(&[Line::Head, PAIR, setting(Setting::Nursery)]) == third);
        assert!(rt; order_of(&[Line::Head, Line::Mutator, Line::Mutator]) == third);
        assert!(rt; order_of(&[Line::Head, Line::Mutator, Line::End, Line::End]) == fourth);
        assert!(rt; order_of(&[Line::Head, Line::Mutator, Line::End, PAIR]) == fourth);
    }

    #[test]
    fn many_open_repeats(rt: HostRuntime) -> Result<(), Fail> {
        let alloc: Global = rt.alloc();
        let mut lines = Vec::new(alloc);
        lines.push(Line::Head)?;
        lines.push(Line::Mutator)?;
        for _ in 0..70_000 {
            lines.push(REPEAT)?;
        }
        assert!(rt; order_of(&lines) == Order::Unfinished);
        for _ in 0..70_000 {
            lines.push(Line::End)?;
        }
        lines.push(Line::End)?;
        assert!(rt; order_of(&lines) == Order::Whole);
        Ok(())
    }
}
