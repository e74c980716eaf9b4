ghost use Rattle.std.specs.Prelude.{◌≡◌, ◌+◌, ◌<◌, ◌≤◌, ◌⊎◌, ◌^◌, ℕ, Bool, Option, IfOk, IfErr, List, length, vec_capacity};
ghost use Rattle.std.specs.List.{Contains};
ghost use Rattle.sg_words.specs.Address.{word_at};
ghost use Rattle.sg_space.specs.Space.{Contents};
ghost use Rattle.sg_words.specs.Tags.{plain_word};
ghost use Rattle.sg_space.specs.Standing.{word, IsStanding};
ghost use Rattle.sg_mark.specs.Marking.{CanMark, HasMarked};
ghost use Rattle.sg_mark.specs.Gray.{most_objects, IsPartly, IsGray, HasVisited, IsFieldAt, IsKindAt, HasScanned, HasVisitedRoots, IsTraced, IsTracedTo};

use sg_desc::Descriptor;
use sg_space::Space;
use sg_words::{Addr, FIRST_WORD};
use std::alloc::{AllocError, Global};

/// What the first word of a young or a large object has more than its tag while the object is marked.
const MARK: u64 = 1 << 63;

/// Marks each object that strong fields reach from these objects, given by their byte addresses; what is marked already stays so, and isn't read.
/// Takes its memory first, 4 bytes for each word of the nursery, the blocks and the pages. Linear in the roots and in the fields of the objects
/// that get their marks, each of which is read once; no recursion.
pub fn mark(alloc: Global, space: &mut Space, roots: &[Addr]) -> Result<(), AllocError>
    requires can { (t : Contents) × (owner : ℕ → Option ℕ) × (marked : ℕ → Bool) × CanMark t owner marked space.old roots.now }
    ensures marked { IfOk result (λ _. (t : Contents) (owner : ℕ → Option ℕ) (marked : ℕ → Bool) → CanMark t owner marked space.old roots.now → HasMarked t owner marked roots.now space.new) }
    ensures kept { IfErr result (λ _. space.new ≡ space.old) }
{
    let most = most_objects(space);
    let mut gray = Vec::with_capacity(alloc, most)?;
    visit_roots(space, roots, &mut gray);
    trace(space, &mut gray);
    Ok(())
}

/// How many objects a space can hold at most.
fn most_objects(space: &Space) -> usize
    ensures { result ≡ most_objects space.now.layout }
{
    let layout = space.layout();
    ((layout.globals_word() - FIRST_WORD) / 2) as usize
}

/// Visits the objects at these byte addresses.
fn visit_roots(space: &mut Space, roots: &[Addr], gray: &mut Vec<Addr>)
    requires gray { (t : Contents) × (owner : ℕ → Option ℕ) × (marked : ℕ → Bool) × IsGray t owner marked space.old gray.old.items × ((a : ℕ) → Contains roots.now a → IsStanding owner a) }
    requires room { most_objects space.old.layout ≤ vec_capacity gray.old }
    ensures visited { (t : Contents) (owner : ℕ → Option ℕ) (marked : ℕ → Bool) → IsGray t owner marked space.old gray.old.items → ((a : ℕ) → Contains roots.now a → IsStanding owner a) →
        HasVisitedRoots t owner marked gray.old.items roots.now (length roots.now) space.new gray.new.items }
    ensures room { vec_capacity gray.new ≡ vec_capacity gray.old }
    ensures layout { space.new.layout ≡ space.old.layout }
{
    for root in roots {
        visit(space, *root, gray);
    }
}

/// Scans each object of the list, those that are added on the way included.
fn trace(space: &mut Space, gray: &mut Vec<Addr>)
    requires gray { (t : Contents) × (owner : ℕ → Option ℕ) × (marked : ℕ → Bool) × (roots : List ℕ) × IsTraced t owner marked roots space.old gray.old.items }
    requires room { most_objects space.old.layout ≤ vec_capacity gray.old }
    ensures { (t : Contents) (owner : ℕ → Option ℕ) (marked : ℕ → Bool) (roots : List ℕ) → IsTraced t owner marked roots space.old gray.old.items →
        IsTracedTo t owner marked roots gray.old.items (length gray.new.items) space.new gray.new.items }
{
    let mut next = 0;
    while next < gray.len() {
        let object = gray[next];
        scan(space, object, gray);
        next += 1;
    }
}

/// Visits what the strong fields of the object at this byte address refer to.
fn scan(space: &mut Space, a: Addr, gray: &mut Vec<Addr>)
    requires gray { (t : Contents) × (owner : ℕ → Option ℕ) × (marked : ℕ → Bool) × IsGray t owner marked space.old gray.old.items × IsStanding owner a }
    requires room { most_objects space.old.layout ≤ vec_capacity gray.old }
    ensures scanned { (t : Contents) (owner : ℕ → Option ℕ) (marked : ℕ → Bool) → IsGray t owner marked space.old gray.old.items → IsStanding owner a →
        HasScanned t owner marked gray.old.items (word_at a) space.new gray.new.items }
    ensures room { vec_capacity gray.new ≡ vec_capacity gray.old }
    ensures layout { space.new.layout ≡ space.old.layout }
{
    let kind = kind_at(space, a);
    let fields = fields_at(space, a);
    let mut i = kind.next_strong(0, fields);
    while i < fields {
        visit_field(space, a.plus(2 + i), gray);
        i = kind.next_strong(i + 1, fields);
    }
}

/// The descriptor of the object at this byte address.
fn kind_at(space: &Space, a: Addr) -> Descriptor
    requires { (t : Contents) × (owner : ℕ → Option ℕ) × (now : ℕ → Bool) × IsPartly t owner now space.now × IsStanding owner a }
    ensures { (t : Contents) (owner : ℕ → Option ℕ) (now : ℕ → Bool) → IsPartly t owner now space.now → IsStanding owner a → IsKindAt t (word_at a) result }
{
    let class = class_of(space.read(a));
    space.shape(class).kind
}

/// How many fields the object at this byte address has.
fn fields_at(space: &Space, a: Addr) -> u32
    requires { (t : Contents) × (owner : ℕ → Option ℕ) × (now : ℕ → Bool) × IsPartly t owner now space.now × IsStanding owner a }
    ensures { (t : Contents) (owner : ℕ → Option ℕ) (now : ℕ → Bool) → IsPartly t owner now space.now → IsStanding owner a → result ≡ word t (word_at a + 1) }
{
    space.read(a.plus(1)) as u32
}

/// The class of an object by its first word, be it marked or not.
fn class_of(word: u64) -> u16
    requires { (class : ℕ) × (class < 256) × ((word ≡ plain_word class) ⊎ (word ≡ plain_word class + 2 ^ 63)) }
    ensures { (class : ℕ) → class < 256 → (word ≡ plain_word class) ⊎ (word ≡ plain_word class + 2 ^ 63) → result ≡ class }
{
    (word % MARK / 8 - 1) as u16
}

/// Visits the object whose address this field holds; nothing where the field holds none.
fn visit_field(space: &mut Space, field: Addr, gray: &mut Vec<Addr>)
    requires gray { (t : Contents) × (owner : ℕ → Option ℕ) × (marked : ℕ → Bool) × IsGray t owner marked space.old gray.old.items × IsFieldAt t owner (word_at field) }
    requires room { most_objects space.old.layout ≤ vec_capacity gray.old }
    ensures visited { (t : Contents) (owner : ℕ → Option ℕ) (marked : ℕ → Bool) → IsGray t owner marked space.old gray.old.items → IsFieldAt t owner (word_at field) →
        HasVisited t owner marked gray.old.items (word t (word_at field)) space.new gray.new.items }
    ensures room { vec_capacity gray.new ≡ vec_capacity gray.old }
    ensures layout { space.new.layout ≡ space.old.layout }
{
    if let Some(target) = Addr::of(space.read(field)) {
        visit(space, target, gray);
    }
}

/// Marks the object at this byte address, and adds it to the list, unless it is marked already.
#[inline(always)]
fn visit(space: &mut Space, a: Addr, gray: &mut Vec<Addr>)
    requires gray { (t : Contents) × (owner : ℕ → Option ℕ) × (marked : ℕ → Bool) × IsGray t owner marked space.old gray.old.items × IsStanding owner a }
    requires room { most_objects space.old.layout ≤ vec_capacity gray.old }
    ensures visited { (t : Contents) (owner : ℕ → Option ℕ) (marked : ℕ → Bool) → IsGray t owner marked space.old gray.old.items → IsStanding owner a →
        HasVisited t owner marked gray.old.items a space.new gray.new.items }
    ensures room { vec_capacity gray.new ≡ vec_capacity gray.old }
    ensures layout { space.new.layout ≡ space.old.layout }
{
    if !space.marked(a) {
        space.set_marked(a, true);
        gray.push_reserved(a);
    }
}
