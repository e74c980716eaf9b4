//! What a line says, by its words.
ghost use Rattle.std.specs.Prelude.{◌≡◌, ◌↔◌, ℕ, [], ◌∷◌, IfSome, IfNone, IsTrue, map};
ghost use Rattle.sg_text.specs.Lines.{Sentence, Sets, AsVector, Makes, IsLine};
ghost use Rattle.sg_text.specs.Reading.{sentence_of, maker_of};
ghost use Rattle.sg_text.specs.Sentences.{same, number_in, register_in, of_one, of_two, of_three, said, formed, shape_alone, mask_shape, shape_of_two, shape_of_four, if_named, class_line, one_word, pause, head, setting_in, on_register, two_words, on_cell, on_two, three_words, link, on_field, four_words, six_words, sentence_in};

use crate::line::{Cell, Form, Line, Maker, Setting};
use crate::words::{is_mask, is_name, number, register};
use sg_program::Statement;

/// Whether the words are the same, byte by byte: with a keyword as `text` its length and its bytes become constants.
#[inline(always)]
fn says(word: &[u8], text: &[u8]) -> bool
    ensures { result ≡ same word.now text.now }
{
    if word.len() != text.len() {
        return false;
    }
    for (at, byte) in text.iter().enumerate() {
        if word[at] != *byte {
            return false;
        }
    }
    true
}

/// A register and a number.
fn register_number(a: &[u8], b: &[u8]) -> Option<(u8, u64)>
    ensures { result ≡ of_two (register_in a.now) (number_in b.now) (λ x y. (x, y)) }
{
    let first = register(a)?;
    let second = number(b)?;
    Some((first, second))
}

/// A number and a register.
fn number_register(a: &[u8], b: &[u8]) -> Option<(u64, u8)>
    ensures { result ≡ of_two (number_in a.now) (register_in b.now) (λ x y. (x, y)) }
{
    let first = number(a)?;
    let second = register(b)?;
    Some((first, second))
}

/// Two registers.
fn two_registers(a: &[u8], b: &[u8]) -> Option<(u8, u8)>
    ensures { result ≡ of_two (register_in a.now) (register_in b.now) (λ x y. (x, y)) }
{
    let first = register(a)?;
    let second = register(b)?;
    Some((first, second))
}

/// A register, a number and a register.
fn store(a: &[u8], b: &[u8], c: &[u8]) -> Option<(u8, u64, u8)>
    ensures { result ≡ of_three (register_in a.now) (number_in b.now) (register_in c.now) (λ x y z. (x, y, z)) }
{
    let r = register(a)?;
    let field = number(b)?;
    let s = register(c)?;
    Some((r, field, s))
}

/// Two registers and a number.
fn load(a: &[u8], b: &[u8], c: &[u8]) -> Option<(u8, u8, u64)>
    ensures { result ≡ of_three (register_in a.now) (register_in b.now) (number_in c.now) (λ x y z. (x, y, z)) }
{
    let d = register(a)?;
    let r = register(b)?;
    let field = number(c)?;
    Some((d, r, field))
}

/// Three numbers.
fn three_numbers(a: &[u8], b: &[u8], c: &[u8]) -> Option<(u64, u64, u64)>
    ensures { result ≡ of_three (number_in a.now) (number_in b.now) (number_in c.now) (λ x y z. (x, y, z)) }
{
    let first = number(a)?;
    let second = number(b)?;
    let third = number(c)?;
    Some((first, second, third))
}

/// A line of one word.
#[tactic(auto, unfolding(crate::specs::Sentences::one_word))]
fn one_word<'a>(verb: &[u8]) -> Option<Line<'a>>
    ensures { said result ≡ one_word verb.now }
{
    if says(verb, b"mutator") {
        return Some(Line::Mutator);
    }
    if says(verb, b"end") {
        return Some(Line::End);
    }
    if says(verb, b"sections") {
        return Some(Line::Do(Statement::Sections));
    }
    None
}

/// What is collected at a pause.
#[tactic(auto, unfolding(crate::specs::Sentences::pause))]
fn pause<'a>(part: &[u8]) -> Option<Line<'a>>
    ensures { said result ≡ pause part.now }
{
    if says(part, b"minor") {
        return Some(Line::Do(Statement::Collect { major: false }));
    }
    if says(part, b"major") {
        return Some(Line::Do(Statement::Collect { major: true }));
    }
    None
}

/// The setting of this name.
#[tactic(auto, unfolding(crate::specs::Sentences::setting_in))]
fn setting_named(name: &[u8]) -> Option<Setting>
    ensures { result ≡ setting_in name.now }
{
    if says(name, b"nursery") {
        return Some(Setting::Nursery);
    }
    if says(name, b"blocks") {
        return Some(Setting::Blocks);
    }
    if says(name, b"pages") {
        return Some(Setting::Pages);
    }
    if says(name, b"buffer") {
        return Some(Setting::Buffer);
    }
    if says(name, b"workers") {
        return Some(Setting::Workers);
    }
    if says(name, b"cement") {
        return Some(Setting::Cement);
    }
    None
}

/// A setting, at its name and its value.
fn setting<'a>(name: &[u8], a: &[u8]) -> Option<Line<'a>>
    ensures { said result ≡ of_two (setting_in name.now) (number_in a.now) Sets }
{
    let setting = setting_named(name)?;
    let n = number(a)?;
    Some(Line::Setting { setting, n })
}

/// A statement about one register, or a setting.
#[tactic(auto, unfolding(crate::specs::Sentences::on_register))]
fn on_register<'a>(verb: &[u8], a: &[u8]) -> Option<Line<'a>>
    ensures { said result ≡ on_register verb.now a.now }
{
    if says(verb, b"drop") {
        let r = register(a)?;
        return Some(Line::Do(Statement::Drop { r }));
    }
    if says(verb, b"push") {
        let r = register(a)?;
        return Some(Line::Do(Statement::Push { r }));
    }
    if says(verb, b"pop") {
        let r = register(a)?;
        return Some(Line::Do(Statement::Pop { r }));
    }
    if says(verb, b"final") {
        let r = register(a)?;
        return Some(Line::Do(Statement::Final { r }));
    }
    if says(verb, b"nextfin") {
        let r = register(a)?;
        return Some(Line::Do(Statement::NextFin { r }));
    }
    setting(verb, a)
}

/// The head, at its number.
#[tactic(auto, unfolding(crate::specs::Sentences::head))]
fn head<'a>(a: &[u8]) -> Option<Line<'a>>
    ensures { said result ≡ head a.now }
{
    if says(a, b"1") {
        return Some(Line::Head);
    }
    None
}

/// A line of two words.
#[tactic(auto, unfolding(crate::specs::Sentences::two_words))]
fn two_words<'a>(verb: &[u8], a: &[u8]) -> Option<Line<'a>>
    ensures { said result ≡ two_words verb.now a.now }
{
    if says(verb, b"sgen") {
        return head(a);
    }
    if says(verb, b"repeat") {
        let times = number(a)?;
        return Some(Line::Repeat { times });
    }
    if says(verb, b"collect") {
        return pause(a);
    }
    on_register(verb, a)
}

/// A statement about a global, or one that gets a weak link.
#[tactic(auto, unfolding(crate::specs::Sentences::on_cell))]
fn on_cell<'a>(verb: &[u8], a: &[u8], b: &[u8]) -> Option<Line<'a>>
    ensures { said result ≡ on_cell verb.now a.now b.now }
{
    if says(verb, b"gput") {
        let (place, r) = number_register(a, b)?;
        return Some(Line::At {
            cell: Cell::GPut,
            r,
            place,
        });
    }
    if says(verb, b"gget") {
        let (r, place) = register_number(a, b)?;
        return Some(Line::At {
            cell: Cell::GGet,
            r,
            place,
        });
    }
    if says(verb, b"wget") {
        let (r, place) = register_number(a, b)?;
        return Some(Line::At {
            cell: Cell::WGet,
            r,
            place,
        });
    }
    None
}

/// A statement about two registers, or one and a number.
#[tactic(auto, unfolding(crate::specs::Sentences::on_two))]
fn on_two<'a>(verb: &[u8], a: &[u8], b: &[u8]) -> Option<Line<'a>>
    ensures { said result ≡ on_two verb.now a.now b.now }
{
    if says(verb, b"num") {
        let (d, n) = register_number(a, b)?;
        return Some(Line::Do(Statement::Num { d, n }));
    }
    if says(verb, b"move") {
        let (d, s) = two_registers(a, b)?;
        return Some(Line::Do(Statement::Move { d, s }));
    }
    if says(verb, b"unhide") {
        let (d, s) = two_registers(a, b)?;
        return Some(Line::Do(Statement::Unhide { d, s }));
    }
    if says(verb, b"same") {
        let (r, s) = two_registers(a, b)?;
        return Some(Line::Do(Statement::Same { r, s }));
    }
    on_cell(verb, a, b)
}

/// A class, at its name and its shape.
#[tactic(auto, unfolding(crate::specs::Sentences::class_line))]
fn class_line<'a>(name: &'a [u8], form: Option<Form<'a>>) -> Option<Line<'a>>
    ensures { said result ≡ class_line name.now (formed form.entry) }
{
    if !is_name(name) {
        return None;
    }
    let form = form?;
    Some(Line::Class { name, form })
}

/// A shape of one word.
#[tactic(auto, unfolding(crate::specs::Sentences::shape_alone))]
fn shape_alone<'a>(kind: &[u8]) -> Option<Form<'a>>
    ensures { formed result ≡ shape_alone kind.now }
{
    if says(kind, b"refs") {
        return Some(Form::Refs);
    }
    if says(kind, b"words") {
        return Some(Form::Words);
    }
    if says(kind, b"pair") {
        return Some(Form::Pair);
    }
    None
}

/// The shape by a mask.
#[tactic(auto, unfolding(crate::specs::Sentences::mask_shape))]
fn mask_shape<'a>(mask: &'a [u8]) -> Option<Form<'a>>
    ensures { formed result ≡ mask_shape mask.now }
{
    if !is_mask(mask) {
        return None;
    }
    Some(Form::Map { mask })
}

/// A shape of two words.
#[tactic(auto, unfolding(crate::specs::Sentences::shape_of_two))]
fn shape_of_two<'a>(kind: &[u8], a: &'a [u8]) -> Option<Form<'a>>
    ensures { formed result ≡ shape_of_two kind.now a.now }
{
    if says(kind, b"plain") {
        let fields = number(a)?;
        return Some(Form::Plain { fields });
    }
    if says(kind, b"map") {
        return mask_shape(a);
    }
    None
}

/// A shape of four words.
#[tactic(auto, unfolding(crate::specs::Sentences::shape_of_four))]
fn shape_of_four<'a>(kind: &[u8], a: &[u8], b: &[u8], c: &[u8]) -> Option<Form<'a>>
    ensures { formed result ≡ shape_of_four kind.now a.now b.now c.now }
{
    if !says(kind, b"run") {
        return None;
    }
    let (fields, first, count) = three_numbers(a, b, c)?;
    Some(Form::Run {
        fields,
        first,
        count,
    })
}

/// A statement that makes an object with the fields of its class.
fn make<'a>(maker: Maker, a: &[u8], name: &'a [u8]) -> Option<Line<'a>>
    ensures { said result ≡ if_named name.now (of_one (register_in a.now) (λ r. Makes (maker_of maker) r name.now)) }
{
    if !is_name(name) {
        return None;
    }
    let r = register(a)?;
    Some(Line::Make { maker, r, name })
}

/// A line of three words.
#[tactic(auto, unfolding(crate::specs::Sentences::three_words))]
fn three_words<'a>(verb: &[u8], a: &'a [u8], b: &'a [u8]) -> Option<Line<'a>>
    ensures { said result ≡ three_words verb.now a.now b.now }
{
    if says(verb, b"class") {
        return class_line(a, shape_alone(b));
    }
    if says(verb, b"new") {
        return make(Maker::Fixed, a, b);
    }
    if says(verb, b"mature") {
        return make(Maker::Mature, a, b);
    }
    on_two(verb, a, b)
}

/// A weak link that is set, by whether it is a short one or a long one.
#[tactic(auto, unfolding(crate::specs::Sentences::link))]
fn link<'a>(a: &[u8], b: &[u8], length: &[u8]) -> Option<Line<'a>>
    ensures { said result ≡ link a.now b.now length.now }
{
    if says(length, b"long") {
        let (place, r) = number_register(a, b)?;
        let cell = Cell::WSet { long: true };
        return Some(Line::At { cell, r, place });
    }
    if says(length, b"short") {
        let (place, r) = number_register(a, b)?;
        let cell = Cell::WSet { long: false };
        return Some(Line::At { cell, r, place });
    }
    None
}

/// A statement about a field, or about the address in an object.
#[tactic(auto, unfolding(crate::specs::Sentences::on_field))]
fn on_field<'a>(verb: &[u8], a: &[u8], b: &[u8], c: &[u8]) -> Option<Line<'a>>
    ensures { said result ≡ on_field verb.now a.now b.now c.now }
{
    if says(verb, b"put") {
        let (r, field, s) = store(a, b, c)?;
        return Some(Line::Do(Statement::Put { r, field, s }));
    }
    if says(verb, b"get") {
        let (d, r, field) = load(a, b, c)?;
        return Some(Line::Do(Statement::Get { d, r, field }));
    }
    if says(verb, b"putd") {
        let (r, field, s) = store(a, b, c)?;
        return Some(Line::Do(Statement::PutD { r, field, s }));
    }
    if says(verb, b"getd") {
        let (d, r, field) = load(a, b, c)?;
        return Some(Line::Do(Statement::GetD { d, r, field }));
    }
    if says(verb, b"hide") {
        let (d, s, offset) = load(a, b, c)?;
        return Some(Line::Do(Statement::Hide { d, s, offset }));
    }
    None
}

/// A statement that makes a vector.
fn make_vector<'a>(a: &[u8], name: &'a [u8], c: &[u8]) -> Option<Line<'a>>
    ensures { said result ≡ if_named name.now (of_two (register_in a.now) (number_in c.now) (λ r count. Makes (AsVector count) r name.now)) }
{
    if !is_name(name) {
        return None;
    }
    let (r, count) = register_number(a, c)?;
    let maker = Maker::Vector { count };
    Some(Line::Make { maker, r, name })
}

/// A line of four words.
#[tactic(auto, unfolding(crate::specs::Sentences::four_words))]
fn four_words<'a>(verb: &[u8], a: &'a [u8], b: &'a [u8], c: &'a [u8]) -> Option<Line<'a>>
    ensures { said result ≡ four_words verb.now a.now b.now c.now }
{
    if says(verb, b"class") {
        return class_line(a, shape_of_two(b, c));
    }
    if says(verb, b"newv") {
        return make_vector(a, b, c);
    }
    if says(verb, b"wset") {
        return link(a, b, c);
    }
    on_field(verb, a, b, c)
}

/// A line of six words.
#[tactic(auto, unfolding(crate::specs::Sentences::six_words))]
fn six_words<'a>(
    verb: &[u8],
    a: &'a [u8],
    b: &[u8],
    c: &[u8],
    d: &[u8],
    e: &[u8],
) -> Option<Line<'a>>
    ensures { said result ≡ six_words verb.now a.now b.now c.now d.now e.now }
{
    if !says(verb, b"class") {
        return None;
    }
    class_line(a, shape_of_four(b, c, d, e))
}

/// What a line with these words says, worked out.
#[tactic(auto, unfolding(crate::specs::Sentences::sentence_in))]
fn sentence_in<'a>(words: &[&'a [u8]]) -> Option<Line<'a>>
    ensures { said result ≡ sentence_in (map (λ w. w.now) words.now) }
{
    match *words {
        [verb] => one_word(verb),
        [verb, a] => two_words(verb, a),
        [verb, a, b] => three_words(verb, a, b),
        [verb, a, b, c] => four_words(verb, a, b, c),
        [verb, a, b, c, d, e] => six_words(verb, a, b, c, d, e),
        _ => None,
    }
}

/// What the line with these words says; `None` where it is no line of the language.
pub(crate) fn line<'a>(words: &[&'a [u8]]) -> Option<Line<'a>>
    ensures found { IfSome result (λ l. IsLine (map (λ w. w.now) words.now) (sentence_of l)) }
    ensures none { IfNone result ((s : Sentence) → ¬ IsLine (map (λ w. w.now) words.now) s) }
{
    sentence_in(words)
}
