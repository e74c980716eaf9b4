// The nursery after marking: the marked objects stay, and the words of all others become zero.

ghost use Rattle.std.specs.Prelude.{◌≡◌, ℕ, ◌↔◌, ◌∷◌, [], ◌≤◌, ◌<◌, true, IfOk, IsTrue};
ghost use Rattle.std.specs.List.{Contains};
ghost use Rattle.sg_words.specs.Sections.{nursery_base, old_base, IsYoung};
ghost use Rattle.sg_space.specs.declared.objects.Object.{Object as Told};
ghost use Rattle.sg_space.specs.Space.{IsContents};
ghost use Rattle.sg_space.specs.Standing.{word};
ghost use Rattle.sg_space.specs.Changes.{IsStill};
ghost use Rattle.sg_nursery.specs.Pieces.{AreStanding, first_word, word_behind};
ghost use Rattle.sg_major.specs.Parts.{is_marked as is_marked_by, marked_among, AreSifted};

use sg_space::{Object, Space};
use std::alloc::{AllocError, Global};

/// Those of these young objects that are marked. Linear in the objects.
pub(crate) fn find_marked(
    alloc: Global,
    space: &Space,
    told: &[Object],
) -> Result<Vec<Object>, AllocError>
    requires { AreStanding space.now.layout told.now }
    ensures { IfOk result (λ standing. standing.items ≡ marked_among (word space.now) told.now) }
{
    let mut standing = Vec::new(alloc);
    for object in told {
        if is_marked(space, object) {
            standing.push(*object)?;
        }
    }
    Ok(standing)
}

// Whether the young object is marked.
fn is_marked(space: &Space, object: &Object) -> bool
    requires from { nursery_base ≤ first_word object.now }
    requires to { first_word object.now < old_base space.now.layout }
    ensures { result ≡ is_marked_by (word space.now) object.now }
{
    space.marked(object.at)
}

/// Takes away the marks of those of these young objects that are marked, and makes the words of all others zero. Linear in the
/// words of the objects.
pub(crate) fn sift(space: &mut Space, told: &[Object])
    requires contents { IsContents space.old }
    requires standing { AreStanding space.old.layout told.now }
    ensures sifted { AreSifted told.now (word space.old) (word space.new) }
    ensures still { IsStill space.old space.new }
{
    for object in told {
        sift_one(space, object);
    }
}

// The same for one object.
fn sift_one(space: &mut Space, object: &Object)
    requires contents { IsContents space.old }
    requires some { 0 < object.now.words }
    requires from { nursery_base ≤ first_word object.now }
    requires to { word_behind object.now ≤ old_base space.old.layout }
    ensures sifted { AreSifted (object.now ∷ []) (word space.old) (word space.new) }
    ensures still { IsStill space.old space.new }
{
    if is_marked(space, object) {
        space.set_marked(object.at, false);
    } else {
        space.clear(object.at, object.words as u64);
    }
}
