ghost use Rattle.std.specs.Prelude.{◌≡◌, ℕ, ◌+◌, ◌<◌, map};
ghost use Rattle.std.specs.List.{Contains};
ghost use Rattle.std.specs.List.Sorted.{IsStrictlyIncreasing};
ghost use Rattle.sg_words.specs.Address.{byte_at, word_at};
ghost use Rattle.sg_words.specs.Tags.{plain_word};
ghost use Rattle.sg_words.specs.Sections.{IsInSection};
ghost use Rattle.sg_space.specs.Space.{IsContents};
ghost use Rattle.sg_space.specs.Standing.{word};
ghost use Rattle.sg_space.specs.Changes.{IsStill, Stores};
ghost use Rattle.sg_nursery.specs.Parts.{HasTagged, ArePlain};

use sg_space::Space;
use sg_words::{Addr, Tag, plain_class, write_tag};

/// The first word of each of these objects gets the tag of a pinned one. Linear in them.
pub fn tag(space: &mut Space, pins: &[Addr])
    requires contents { IsContents space.old }
    requires in_order { IsStrictlyIncreasing pins.now }
    requires plain { ArePlain space.old pins.now }
    ensures still { IsStill space.old space.new }
    ensures tagged { HasTagged (word space.old) (map word_at pins.now) (word space.new) }
{
    for pin in pins {
        tag_one(space, *pin);
    }
}

// The first word of this plain object gets the tag of a pinned one.
fn tag_one(space: &mut Space, pin: Addr)
    requires section { IsInSection space.old.layout (word_at pin) }
    requires plain { (class : ℕ) × (class < 256) × (word space.old (word_at pin) ≡ plain_word class) }
    ensures still { IsStill space.old space.new }
    ensures tagged { Stores (word space.old) (word_at pin) (word space.old (word_at pin) + 2) (word space.new) }
{
    if let Some(class) = plain_class(space.read(pin)) {
        space.write(pin, write_tag(Tag::Pinned { class }));
    }
}
