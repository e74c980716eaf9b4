ghost use Rattle.std.specs.Prelude.{◌≡◌, ℕ, ◌+◌, ◌/◌, ◌≤◌, length, MatchOption};
ghost use Rattle.sg_los.specs.Pages.{IsNoRun, IsLowestRun, SetsPages, TakesPages, IsLargeRun, IsLargeAt, FreesPages};

use sg_space::Space;
use sg_words::{Addr, PAGE_WORDS};

/// How many pages an object of so many words needs.
pub fn pages_for(words: u32) -> u32
    ensures { result ≡ (words + 127) / 128 }
{
    ((words as u64 + PAGE_WORDS - 1) / PAGE_WORDS) as u32
}

/// Takes the lowest free run of `n` pages, marks each page of it as belonging to the run's first one, and answers the byte address of its
/// first word. `None` exactly where no free run of `n` pages exists, and then nothing changes. Linear in the pages.
pub fn take_pages(space: &mut Space, n: u32) -> Option<Addr>
    requires { 1 ≤ n }
    ensures { TakesPages space.old n result space.new }
{
    let first = lowest_run(space, n)?;
    let at = Addr::at_word(space.layout().large_word() + PAGE_WORDS * first as u64);
    set_pages(space, first, first + n, first as u64 + 1);
    Some(at)
}

/// Frees the pages of the large object that begins at this byte address: the words of these pages become zero, and the pages free. The mark of
/// a large object stands in its first word: where the space is to be sound afterwards, no large object is marked by then. Linear in the
/// words of the object's pages.
pub fn free_pages(space: &mut Space, at: Addr)
    requires { IsLargeAt space.old at }
    ensures { FreesPages space.old at space.new }
{
    let first = ((at.word() - space.layout().large_word()) / PAGE_WORDS) as u32;
    let end = run_end(space, first);
    space.clear(at, PAGE_WORDS * (end - first) as u64);
    set_pages(space, first, end, 0);
}

/// The first page of the lowest free run of `n` pages; `None` exactly where there is no such run.
fn lowest_run(space: &Space, n: u32) -> Option<u32>
    requires { 1 ≤ n }
    ensures { MatchOption result (IsNoRun space.now n) (λ first. IsLowestRun space.now first n) }
{
    let pages = space.layout().pages;
    // So many pages before this one are free, one behind another.
    let mut free = 0;
    for page in 0..pages {
        free = if space.page(page) == 0 { free + 1 } else { 0 };
        if free == n {
            return Some(page + 1 - n);
        }
    }
    None
}

/// The page behind the last one of the large object whose first page is `first`.
fn run_end(space: &Space, first: u32) -> u32
    requires { (end : ℕ) × IsLargeRun space.now first end }
    ensures { IsLargeRun space.now first result }
{
    let pages = space.layout().pages;
    for page in first..pages {
        if space.page(page) != first as u64 + 1 {
            return page;
        }
    }
    pages
}

/// The pages from `from` to before `end` get this word.
fn set_pages(space: &mut Space, from: u32, end: u32, word: u64)
    requires order { from ≤ end }
    requires within { end ≤ length space.old.pages }
    ensures { SetsPages space.old from end word space.new }
{
    for page in from..end {
        space.set_page(page, word);
    }
}
