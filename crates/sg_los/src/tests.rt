ghost use Rattle.std.specs.Prelude.{◌≡◌, ◌≢◌, ℕ, ◌<◌, ◌≤◌, true, length};
ghost use Rattle.sg_space.specs.Space.{IsContents};
ghost use Rattle.sg_space.specs.Standing.{page_in};
ghost use Rattle.sg_los.specs.Pages.{IsLargeRun};

use crate::*;
use sg_space::{Layout, Space};
use sg_words::Addr;
use std::alloc::{AllocError, Global};
use std::test::Fail;

// The pages begin at word 1,024, which is byte 8,192; a page has 1,024 bytes.
fn space_of(alloc: Global, pages: u32) -> Result<Space, AllocError>
    requires { pages ≤ 1024 }
{
    let layout = Layout {
        nursery: 256,
        blocks: 1,
        pages,
    };
    Space::new(alloc, layout, &[])
}

// The byte address of what was taken; 0 where nothing was.
fn take(space: &mut Space, n: u32) -> u64 {
    if n == 0 {
        return 0;
    }
    match take_pages(space, n) {
        Some(at) => at.get(),
        None => 0,
    }
}

// The word of this page; none where there is no such page.
fn page(space: &Space, number: u32) -> Option<u64> {
    if number < space.layout().pages {
        Some(space.page(number))
    } else {
        None
    }
}

// The word with this number becomes `value`, where it is in a section.
fn put(space: &mut Space, number: u64, value: u64) {
    if 512 <= number && number < space.layout().end_word() {
        space.write(Addr::at_word(number), value);
    }
}

// The word with this number; none where it is in no section.
fn get(space: &Space, number: u64) -> Option<u64> {
    if 512 <= number && number < space.layout().end_word() {
        Some(space.read(Addr::at_word(number)))
    } else {
        None
    }
}

// Whether each page from `from` to before `end` has this word.
fn all_have(space: &Space, from: u32, end: u32, word: u64) -> bool
    requires { end ≤ length space.now.pages }
    ensures { result ≡ true → (j : ℕ) → from ≤ j → j < end → page_in space.now j ≡ word }
{
    for page in from..end {
        if space.page(page) != word {
            return false;
        }
    }
    true
}

// Whether no page from `from` to before `end` has this word.
fn none_has(space: &Space, from: u32, end: u32, word: u64) -> bool
    requires { end ≤ length space.now.pages }
    ensures { result ≡ true → (j : ℕ) → from ≤ j → j < end → page_in space.now j ≢ word }
{
    for page in from..end {
        if space.page(page) == word {
            return false;
        }
    }
    true
}

// Whether the pages from `first` to before `end` are those of one large object.
fn is_run(space: &Space, first: u32, end: u32) -> bool
    requires { IsContents space.now }
    ensures { result ≡ true → IsLargeRun space.now first end }
{
    let pages = space.layout().pages;
    let word = first as u64 + 1;
    first < end
        && end <= pages
        && all_have(space, first, end, word)
        && none_has(space, 0, first, word)
        && none_has(space, end, pages, word)
}

// Frees the pages from `first` to before `end`, where they are those of one large object.
fn free(space: &mut Space, first: u32, end: u32) -> bool {
    let layout = space.layout();
    if !is_run(space, first, end) {
        return false;
    }
    free_pages(
        space,
        Addr::at_word(layout.large_word() + 128 * first as u64),
    );
    true
}

// An object has a page for each 128 words that it begins.
#[test]
fn counts(rt: HostRuntime) -> Result<(), Fail> {
    assert_eq!(rt; pages_for(65), 1);
    assert_eq!(rt; pages_for(128), 1);
    assert_eq!(rt; pages_for(129), 2);
    assert_eq!(rt; pages_for(256), 2);
    assert_eq!(rt; pages_for(257), 3);
    assert_eq!(rt; pages_for(u32::MAX), 33_554_432);
    Ok(())
}

// All pages can be taken at once, and not one more.
#[test]
fn all_pages(rt: HostRuntime) -> Result<(), Fail> {
    let mut space = space_of(rt.alloc(), 3)?;
    assert_eq!(rt; take(&mut space, 4), 0);
    assert_eq!(rt; page(&space, 0), Some(0));
    assert_eq!(rt; take(&mut space, 3), 8192);
    assert_eq!(rt; page(&space, 0), Some(1));
    assert_eq!(rt; page(&space, 1), Some(1));
    assert_eq!(rt; page(&space, 2), Some(1));
    assert_eq!(rt; take(&mut space, 1), 0);
    Ok(())
}

// A space with no pages gives none.
#[test]
fn no_pages(rt: HostRuntime) -> Result<(), Fail> {
    let mut space = space_of(rt.alloc(), 0)?;
    assert_eq!(rt; take(&mut space, 1), 0);
    Ok(())
}

// A free run that is a page too short is passed over, and a free run at the end is found.
#[test]
fn too_short(rt: HostRuntime) -> Result<(), Fail> {
    let mut space = space_of(rt.alloc(), 6)?;
    assert_eq!(rt; take(&mut space, 2), 8192);
    assert_eq!(rt; take(&mut space, 1), 10_240);
    assert_eq!(rt; free(&mut space, 0, 2), true);
    assert_eq!(rt; take(&mut space, 4), 0);
    assert_eq!(rt; take(&mut space, 3), 11_264);
    assert_eq!(rt; page(&space, 5), Some(4));
    assert_eq!(rt; take(&mut space, 3), 0);
    assert_eq!(rt; take(&mut space, 2), 8192);
    Ok(())
}

// A run between two others is freed, its words become zero, and it is taken again.
#[test]
fn between_two(rt: HostRuntime) -> Result<(), Fail> {
    let mut space = space_of(rt.alloc(), 4)?;
    assert_eq!(rt; take(&mut space, 1), 8192);
    assert_eq!(rt; take(&mut space, 2), 9216);
    assert_eq!(rt; take(&mut space, 1), 11_264);
    put(&mut space, 1151, 7);
    put(&mut space, 1152, 8);
    put(&mut space, 1407, 9);
    put(&mut space, 1408, 10);
    assert_eq!(rt; free(&mut space, 1, 2), false);
    assert_eq!(rt; free(&mut space, 1, 3), true);
    assert_eq!(rt; get(&space, 1151), Some(7));
    assert_eq!(rt; get(&space, 1152), Some(0));
    assert_eq!(rt; get(&space, 1407), Some(0));
    assert_eq!(rt; get(&space, 1408), Some(10));
    assert_eq!(rt; page(&space, 0), Some(1));
    assert_eq!(rt; page(&space, 1), Some(0));
    assert_eq!(rt; page(&space, 2), Some(0));
    assert_eq!(rt; page(&space, 3), Some(4));
    assert_eq!(rt; take(&mut space, 3), 0);
    assert_eq!(rt; take(&mut space, 2), 9216);
    assert_eq!(rt; page(&space, 2), Some(2));
    Ok(())
}
