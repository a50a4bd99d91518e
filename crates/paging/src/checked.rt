// The tests of the calls that list pages, in their order. None of them writes anything.
// Refusal 1, refusal 2, refusal 3, refusal 4, refusal 5, refusal 8.
// A table is lent with a count of lines beside it, as C lends it: the count may be past the table, and refusal 5 answers that.
ghost use Rattle.std.specs.Prelude.{◌≤◌, ◌≡◌, length};
ghost use Rattle.meaning.specs.Checks.{check_room};
ghost use Rattle.meaning.specs.Table.{capacity_of};
ghost use Rattle.meaning.specs.Pages.{page_numbers, pages_of};
ghost use Rattle.meaning.specs.PageCalls.{check_paging, check_paging_again};
ghost use Rattle.rows.specs.RowsFrom.{TextReady, entries_of};

use checks::limit::check_limit;
use checks::room::check_room;
use layout::checked::check_layout;
use look::well_formed::check_table;
use meaning::refusals::Refusal;
use meaning::settings::Settings;
use meaning::sizes::PAGE_NUMBERS;
use page_list::counting::page_count;
use rows::lines::count_lines;

// Refusal 8 of the list. A text has at most one line more than bytes, so a list with room for the pages of so many needs no count first.
fn check_pages(s: Settings, text: &[u8], h: u32, pages: &[u32]) -> Result<(), Refusal>
    requires { TextReady s text.now × (1 ≤ h) }
    ensures { result ≡ check_room (capacity_of page_numbers pages.now) (length (pages_of h (entries_of s text.now))) }
{
    let room = pages.len() / PAGE_NUMBERS;
    if page_count(text.len() + 1, h) <= room {
        return Ok(());
    }
    let lines = count_lines(text, s);
    check_room(room, page_count(lines, h))
}

// Refusals 1, 2, 3 and 4, then 8 of the table, then of the list.
pub fn check_paging(
    s: Settings,
    text: &[u8],
    h: u32,
    table: &[u32],
    pages: &[u32],
) -> Result<(), Refusal>
    ensures { result ≡ check_paging s h text.now table.now pages.now }
{
    check_limit(h)?;
    check_layout(s, text, table)?;
    check_pages(s, text, h, pages)
}

// Refusals 1, 5 and 8 of the pages of a table.
pub fn check_paging_again(table: &[u32], lines: usize, h: u32, pages: &[u32]) -> Result<(), Refusal>
    ensures { result ≡ check_paging_again table.now lines h pages.now }
{
    check_limit(h)?;
    check_table(table, lines)?;
    check_room(pages.len() / PAGE_NUMBERS, page_count(lines, h))
}
