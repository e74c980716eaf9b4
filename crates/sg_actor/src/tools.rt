// What a mutator works out without a port.
ghost use Rattle.std.specs.Prelude.{◌≡◌, ◌+◌, ◌<◌, ◌^◌, ◌⊎◌, length, IfSome, MatchOption};
ghost use Rattle.sg_program.specs.declared.answers.Request.{Request as AnyRequest};
ghost use Rattle.sg_program.specs.Scripts.{made_in, shape_of, IsCollecting};
ghost use Rattle.sg_program.specs.Tests.{test_of};
ghost use Rattle.sg_desc.specs.Shapes.{has_field as field_of_sort};
ghost use Rattle.sg_words.specs.Address.{IsAddress, byte_at, word_at};
ghost use Rattle.sg_words.specs.Blocks.{IsSizeClass, slots, slot_base, HasCard, card_of};
ghost use Rattle.sg_words.specs.Sections.{globals_base};
ghost use Rattle.sg_program.specs.Invariants.{AreWithinLimits};
ghost use Rattle.sg_rules.specs.Rules.{reference_answer};
ghost use Rattle.sg_rules.specs.Resting.{answered_register as register_of, word_in};
ghost use Rattle.sg_actor.specs.Testing.{sort_of, as_test_option, layout_of};

use sg_blocks::slot_word;
use sg_desc::{Descriptor, Shape};
use sg_program::{Answer, Config, Program, Request, Statement};
use sg_words::{Addr, BLOCK_WORDS, Layout};

/// The object test of a statement: which register's object is tested, for which field, and whether that has to hold a reference.
#[derive(Clone, Copy)]
pub struct ObjectTest {
    pub register: u8,
    pub field: u64,
    pub is_reference: bool,
}

/// The object test of a statement, where it has one.
pub(crate) fn object_test(statement: Statement) -> Option<ObjectTest>
    ensures { as_test_option result ≡ test_of statement }
{
    let (register, field, is_reference) = match statement {
        Statement::Put { r, field, .. } => (r, field, true),
        Statement::Get { r, field, .. } => (r, field, true),
        Statement::PutD { r, field, .. } => (r, field, false),
        Statement::GetD { r, field, .. } => (r, field, false),
        _ => return None,
    };
    Some(ObjectTest {
        register,
        field,
        is_reference,
    })
}

/// What a statement asks for in any case, where it does.
pub(crate) fn stop_request(statement: Statement) -> Option<Request>
    ensures { MatchOption result ((request : AnyRequest) → ¬ IsCollecting statement request) (IsCollecting statement) }
{
    match statement {
        Statement::Collect { major: false } => Some(Request::Minor),
        Statement::Collect { major: true } => Some(Request::Major),
        Statement::Sections => Some(Request::Sections),
        _ => None,
    }
}

/// The register that the answer to a statement which asked sets, where it sets one.
pub(crate) fn answered_register(statement: Statement) -> Option<u8>
    ensures register { result ≡ register_of statement }
    ensures made { IfSome result (λ r. r ≡ made_in statement) }
{
    match statement {
        Statement::New { r, .. } => Some(r),
        Statement::NewV { r, .. } => Some(r),
        Statement::Mature { r, .. } => Some(r),
        _ => None,
    }
}

/// The word of the object in an answer, or 0 where it has none.
pub(crate) fn object_word(answer: Answer) -> u64
    ensures { result ≡ word_in answer }
{
    match answer {
        Answer::At(at) => at.get(),
        _ => 0,
    }
}

/// The shape of the objects of this class.
pub(crate) fn shape(program: &Program, class: u16) -> Shape
    requires { class < length program.now.classes }
    ensures { result ≡ shape_of program.now class }
{
    program.classes.as_slice()[class as usize].shape
}

/// Whether an object of `len` fields has this field, and the field is of this sort.
pub(crate) fn has_field(kind: &Descriptor, len: u64, field: u64, is_reference: bool) -> bool
    requires { len < 2 ^ 32 }
    ensures { result ≡ field_of_sort (sort_of is_reference) kind.now len field }
{
    field < len && kind.is_ref(field as u32, len as u32) == is_reference
}

/// The answer with the object that a word refers to.
pub(crate) fn reference(word: u64) -> Answer
    requires { (word ≡ 0) ⊎ IsAddress word }
    ensures { result ≡ reference_answer word }
{
    match Addr::of(word) {
        Some(at) => Answer::At(at),
        None => Answer::Nil,
    }
}

/// The byte address of this global.
pub(crate) fn global_at(config: &Config, g: u8) -> u64
    requires limits { AreWithinLimits config.now }
    requires there { g < 64 }
    ensures { result ≡ byte_at (globals_base (record { nursery = config.now.nursery; blocks = config.now.blocks; pages = config.now.pages }) + g) }
{
    let layout = Layout {
        nursery: config.nursery,
        blocks: config.blocks,
        pages: config.pages,
    };
    layout.global(g as u32).get()
}

/// The number of the first word of this slot of this block, of slots of `size` words.
pub(crate) fn slot_at(config: &Config, block: u32, size: u32, slot: u32) -> u64
    requires limits { AreWithinLimits config.now }
    requires class { IsSizeClass size }
    requires there { block < config.now.blocks }
    requires fits { slot < slots size }
    ensures { result ≡ slot_base (layout_of config.now) block size slot }
{
    let layout = Layout {
        nursery: config.nursery,
        blocks: config.blocks,
        pages: config.pages,
    };
    layout.old_word() + BLOCK_WORDS * block as u64 + slot_word(size, slot) as u64
}

/// The card of the word at this byte address of the nursery, the major heap or the large space: the nursery's words have none.
pub(crate) fn card_at(config: &Config, place: u64) -> Option<u32>
    requires limits { AreWithinLimits config.now }
    requires there { word_at place < globals_base (layout_of config.now) }
    ensures { MatchOption result (¬ HasCard (layout_of config.now) (word_at place))
        (λ card. HasCard (layout_of config.now) (word_at place) × (card ≡ card_of (layout_of config.now) (word_at place))) }
{
    let layout = Layout {
        nursery: config.nursery,
        blocks: config.blocks,
        pages: config.pages,
    };
    let number = place / 8;
    let first = layout.old_word();
    if number < first {
        return None;
    }
    Some(((number - first) / 64) as u32)
}
