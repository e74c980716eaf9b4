//! The classes of a text by their names.
ghost use Rattle.std.specs.Prelude.{◌≡◌, ◌↔◌, ℕ, IsTrue, Some, true, false, ◌++◌, [], ◌∷◌, slice_get, map, OnOk, IfOk, IfSome, IfNone};
ghost use Rattle.sg_desc.specs.Shapes.{is_vector};
ghost use Rattle.sg_limits.specs.Faults.{wants_vector, class_in};
ghost use Rattle.sg_parse.specs.Names.{class_named, classes_of, HaveOwnNames, Misnames, IsNamed, IsNaming};
ghost use Rattle.sg_text.specs.Reading.{maker_of, shape_in, sentence_of};
ghost use Rattle.sg_grammar.specs.Text.{IsClassName, StandsFor};

use indexmap::IndexMap;
use sg_text::{Form, Line, Maker};
use std::alloc::{AllocError, Global};

/// The classes of a text by their names, in the order of their lines.
#[derive(Drop)]
pub(crate) struct Names<'a> {
    forms: IndexMap<&'a [u8], Form<'a>>,
}

/// What the names of a text come to.
#[derive(Drop)]
pub(crate) enum Named<'a> {
    /// Each class is declared once and above its use, and these are the classes.
    Classes(Names<'a>),
    /// The sentence with this index is the first one that misnames a class.
    Misnamed { index: usize },
}

/// Whether each object of the class has a number of fields of its own.
fn is_vector(form: &Form<'_>) -> bool
    ensures { result ≡ is_vector (shape_in form.now).kind }
{
    match form {
        Form::Refs | Form::Words => true,
        Form::Plain { .. } | Form::Run { .. } | Form::Map { .. } | Form::Pair => false,
    }
}

/// Whether the line gives its object a number of fields.
fn wants_vector(maker: &Maker) -> bool
    ensures { result ≡ wants_vector (maker_of maker.now) }
{
    match maker {
        Maker::Vector { .. } => true,
        Maker::Fixed | Maker::Mature => false,
    }
}

impl<'a> Names<'a> {
    /// No classes.
    fn new(alloc: Global) -> Self
        ensures { classes_of result ≡ [] }
    {
        Names {
            forms: IndexMap::new(alloc),
        }
    }

    /// Whether the class that stands first has this name.
    fn is_first(&self, name: &[u8]) -> bool
        ensures first { IsTrue result ↔ StandsFor (classes_of self.now) name.now 0 }
        ensures distinct { HaveOwnNames (classes_of self.now) }
    {
        match self.forms.as_slice().first() {
            Some((key, _)) => *key == name,
            None => false,
        }
    }

    /// The number of the class of this name.
    pub(crate) fn number(&self, name: &[u8]) -> Option<usize>
        ensures found { IfSome result (StandsFor (classes_of self.now) name.now) }
        ensures none { IfNone result ((c : ℕ) → ¬ IsClassName (classes_of self.now) name.now c) }
        ensures distinct { HaveOwnNames (classes_of self.now) }
    {
        // Most texts make most objects of their first class, so its name is compared without hashing.
        if self.is_first(name) {
            return Some(0);
        }
        self.forms.get_index_of(name)
    }

    /// The form of the class of this name.
    pub(crate) fn form(&self, name: &[u8]) -> Option<Form<'a>>
        ensures found { IfSome result (IsNamed (classes_of self.now) name.now) }
        ensures none { IfNone result ((c : ℕ) → ¬ IsClassName (classes_of self.now) name.now c) }
        ensures distinct { HaveOwnNames (classes_of self.now) }
    {
        let number = self.number(name)?;
        let (_, form) = self.forms.get_index(number)?;
        Some(*form)
    }

    /// Whether the line, behind the lines of these classes, misnames a class.
    fn misnames(&self, line: &Line<'_>) -> bool
        ensures wrong { result ≡ true → Misnames (classes_of self.now) (sentence_of line.now) }
        ensures right { result ≡ false → ¬ Misnames (classes_of self.now) (sentence_of line.now) }
    {
        match line {
            Line::Class { name, .. } => self.number(name).is_some(),
            Line::Make { maker, name, .. } => match self.form(name) {
                Some(form) => is_vector(&form) != wants_vector(maker),
                None => true,
            },
            _ => false,
        }
    }

    /// Adds a class of another name.
    fn add(&mut self, name: &'a [u8], form: Form<'a>) -> Result<(), AllocError>
        requires { (c : ℕ) → ¬ IsClassName (classes_of self.old) name.now c }
        ensures { OnOk result (classes_of self.new ≡ classes_of self.old ++ class_named name.now form.entry ∷ []) }
    {
        self.forms.insert(name, form)?;
        Ok(())
    }

    /// Adds the class that the line declares, if it declares one.
    fn note(&mut self, line: &Line<'a>) -> Result<(), AllocError>
        requires { ¬ Misnames (classes_of self.old) (sentence_of line.now) }
        ensures { OnOk result (classes_of self.new ≡ classes_of self.old ++ class_in (sentence_of line.now)) }
    {
        if let Line::Class { name, form } = line {
            self.add(*name, *form)?;
        }
        Ok(())
    }
}

/// The first line that declares a class twice, or makes an object of a class that isn't declared above it or is of the other
/// kind; where there is none, the classes.
pub(crate) fn name_classes<'a>(alloc: Global, lines: &[Line<'a>]) -> Result<Named<'a>, AllocError>
    ensures { IfOk result (IsNaming (map sentence_of lines.now)) }
{
    let mut names = Names::new(alloc);
    for (index, line) in lines.iter().enumerate() {
        if names.misnames(line) {
            return Ok(Named::Misnamed { index });
        }
        names.note(line)?;
    }
    Ok(Named::Classes(names))
}
