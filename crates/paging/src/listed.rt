// Pages listed: of a text that is laid, and again of its table after an edit. Public calls.
// Rule 10, refusal 1, refusal 2, refusal 3, refusal 4, refusal 5, refusal 8.
// A table is lent with a count of lines beside it, as C lends it: the count may be past the table, and refusal 5 answers that.
ghost use Rattle.std.specs.Prelude.{◌≤◌, ◌≡◌};
ghost use Rattle.meaning.specs.Pages.{kept_pages};
ghost use Rattle.meaning.specs.PageCalls.{paging_answer, paging_table, paging_list, paging_again_answer, paging_again_list};

use crate::checked::{check_paging, check_paging_again};
use meaning::answers::Paged;
use meaning::refusals::Refusal;
use meaning::settings::Settings;
use page_list::counting::page_count;
use page_list::writing::write_pages;
use rows::lines::write_lines;

// Each line's eleven numbers and each page's three; or a refusal, of which none writes anything.
pub fn lay_pages(
    s: Settings,
    text: &[u8],
    h: u32,
    table: &mut [u32],
    pages: &mut [u32],
) -> Result<Paged, Refusal>
    ensures value { result ≡ paging_answer s h text.now table.old pages.old }
    ensures table_after { table.new ≡ paging_table s h text.now table.old pages.old }
    ensures pages_after { pages.new ≡ paging_list s h text.now table.old pages.old }
{
    check_paging(s, text, h, table, pages)?;
    let lines = write_lines(text, s, table);
    write_pages(table, lines, h, 0, pages);
    let count = page_count(lines, h);
    Ok(Paged {
        lines: lines as u64,
        pages: count as u64,
    })
}

// How many pages are kept where this line is the first affected one.
fn kept_pages(h: u32, first: usize, lines: usize) -> usize
    requires { 1 ≤ h }
    ensures { result ≡ kept_pages h first lines }
{
    if first < lines {
        return first / h as usize;
    }
    lines
}

// The pages of a table from the one that holds the first affected line on; or a refusal, of which none writes anything.
pub fn list_again(
    table: &[u32],
    lines: usize,
    h: u32,
    first: usize,
    pages: &mut [u32],
) -> Result<u64, Refusal>
    ensures value { result ≡ paging_again_answer table.now lines h pages.old }
    ensures pages_after { pages.new ≡ paging_again_list table.now lines h first pages.old }
{
    check_paging_again(table, lines, h, pages)?;
    let kept = kept_pages(h, first, lines);
    write_pages(table, lines, h, kept, pages);
    let count = page_count(lines, h);
    Ok(count as u64)
}
