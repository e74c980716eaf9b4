ghost use Rattle.std.specs.Prelude.{◌≡◌, ◌/◌, ◌-◌, ◌<◌, ◌≤◌, SomeIff};
ghost use Rattle.sg_words.specs.Tags.{plain_word, pinned_word, forward_word, tag_word, IsTag, ReadsTag, ReadsClass, ReadsForward};

use crate::address::Addr;

/// The state of an object in its first word. Classes are numbers from 0 to 255.
#[derive(Clone, Copy, Debug, PartialEq, Eq)]
pub enum Tag {
    /// An object of this class, to which nothing has happened.
    Plain { class: u16 },
    /// An object that was copied to this address.
    Forwarded { to: Addr },
    /// An object that stays where it is in this pause.
    Pinned { class: u16 },
    /// An object that stays where it is over several pauses.
    Cemented { class: u16 },
}

/// The tag whose word this is; `None` exactly where it is no tag's word.
pub fn read_tag(word: u64) -> Option<Tag>
    ensures { ReadsTag result word }
{
    match word % 8 {
        0 => Some(Tag::Plain {
            class: class_in(word)?,
        }),
        1 => Some(Tag::Forwarded {
            to: Addr::of(word - 1)?,
        }),
        2 => Some(Tag::Pinned {
            class: class_in(word)?,
        }),
        4 => Some(Tag::Cemented {
            class: class_in(word)?,
        }),
        _ => None,
    }
}

/// The class of the object whose first word this is, where it is a plain tag; `None` exactly where it is none.
pub fn plain_class(word: u64) -> Option<u16>
    ensures { ReadsClass plain_word result word }
{
    if word % 8 == 0 { class_in(word) } else { None }
}

/// The class of the object whose first word this is, where it is the tag of a pinned one; `None` exactly where it is none.
pub fn pinned_class(word: u64) -> Option<u16>
    ensures { ReadsClass pinned_word result word }
{
    if word % 8 == 2 { class_in(word) } else { None }
}

/// Where the object was copied whose first word this is; `None` exactly where it is no forwarding word.
pub fn forwarded_to(word: u64) -> Option<Addr>
    ensures { ReadsForward result word }
{
    if word % 8 == 1 {
        Addr::of(word - 1)
    } else {
        None
    }
}

// The class in a word without its low bits.
fn class_in(word: u64) -> Option<u16>
    ensures { SomeIff result ((8 ≤ word) × (word < 2056)) (word / 8 - 1) }
{
    if 8 <= word && word < 2056 {
        Some((word / 8 - 1) as u16)
    } else {
        None
    }
}

fn class_word(class: u16) -> u64
    requires { class < 256 }
    ensures { result ≡ plain_word class }
{
    8 * (class as u64 + 1)
}

/// The one word of a tag.
pub fn write_tag(tag: Tag) -> u64
    requires { IsTag tag }
    ensures { result ≡ tag_word tag }
{
    match tag {
        Tag::Plain { class } => class_word(class),
        Tag::Forwarded { to } => to.get() + 1,
        Tag::Pinned { class } => class_word(class) + 2,
        Tag::Cemented { class } => class_word(class) + 4,
    }
}
