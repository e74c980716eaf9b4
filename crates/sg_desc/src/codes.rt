ghost use Rattle.std.specs.Prelude.{◌≡◌, ◌%◌, Some};
ghost use Rattle.sg_desc.specs.declared.shapes.Descriptor.{Descriptor as AnyDescriptor};
ghost use Rattle.sg_desc.specs.Codes.{IsDescriptor, descriptor_word, Reads};

use crate::shapes::Descriptor;

/// The one word of a descriptor.
pub fn encode(descriptor: Descriptor) -> u64
    requires { IsDescriptor descriptor }
    ensures { result ≡ descriptor_word descriptor }
{
    match descriptor {
        Descriptor::PtrFree => 0,
        Descriptor::Run { first, count } => 1 + 8 * first as u64 + 2048 * count as u64,
        Descriptor::Bitmap { bits } => 2 + 8 * bits,
        Descriptor::VectorRefs => 3,
        Descriptor::VectorPlain => 4,
        Descriptor::Ephemeron => 5,
    }
}

/// The descriptor whose word this is; `None` exactly where it is no descriptor's word.
pub fn decode(word: u64) -> Option<Descriptor>
    ensures reads { Reads result word }
    ensures only { (descriptor : AnyDescriptor) → IsDescriptor descriptor → descriptor_word descriptor ≡ word → result ≡ Some descriptor }
{
    descriptor_in(word)
}

// A descriptor whose word this is.
fn descriptor_in(word: u64) -> Option<Descriptor>
    ensures { Reads result word }
{
    match word % 8 {
        0 => if word == 0 {
            Some(Descriptor::PtrFree)
        } else {
            None
        },
        1 => run_in(word),
        2 => bitmap_in(word),
        3 => if word == 3 {
            Some(Descriptor::VectorRefs)
        } else {
            None
        },
        4 => if word == 4 {
            Some(Descriptor::VectorPlain)
        } else {
            None
        },
        5 => if word == 5 {
            Some(Descriptor::Ephemeron)
        } else {
            None
        },
        _ => None,
    }
}

// The run whose word this is.
fn run_in(word: u64) -> Option<Descriptor>
    requires { word % 8 ≡ 1 }
    ensures { Reads result word }
{
    let first = word / 8 % 256;
    let count = word / 2048;
    if 1 <= count && first + count <= 62 {
        Some(Descriptor::Run {
            first: first as u32,
            count: count as u32,
        })
    } else {
        None
    }
}

// The mask whose word this is.
fn bitmap_in(word: u64) -> Option<Descriptor>
    requires { word % 8 ≡ 2 }
    ensures { Reads result word }
{
    let bits = word / 8;
    if bits < 1 << 60 {
        Some(Descriptor::Bitmap { bits })
    } else {
        None
    }
}
