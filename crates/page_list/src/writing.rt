// The pages of a table's lines, written one after the other to a list (rule 10).
// A table goes with the number of its lines beside it: heights says at `height_of` why.
ghost use Rattle.std.specs.Prelude.{◌+◌, ◌*◌, ◌≤◌, ◌<◌, ◌≡◌, length};
ghost use Rattle.meaning.specs.Table.{entry_numbers, entries_in, of_all};
ghost use Rattle.meaning.specs.Pages.{end_before, pages_of, page_numbers, of_page, written_past};
ghost use Rattle.table.specs.LinesFrom.{lines_from};
ghost use Rattle.table.specs.Numbers.{put_numbers};
ghost use Rattle.page_list.specs.PageTurns.{Listable, page_here};

use crate::counting::page_count;
use look::well_formed::text_length;
use meaning::counts::Offset;
use meaning::page::Page;
use meaning::sizes::{ENTRY_NUMBERS, PAGE_NUMBERS};

// Where the lines before a line end: at its start, and at the text's end if there is no such line.
fn end_before(table: &[u32], lines: usize, bytes: Offset, line: usize) -> Offset
    requires { (entry_numbers * lines ≤ length table.now) × (lines ≤ 65536) }
    ensures { result.0 ≡ end_before bytes.0 (lines_from table.now lines line) }
{
    if line < lines {
        return Offset(table[ENTRY_NUMBERS * line]);
    }
    bytes
}

// The page that begins with a line.
fn page_at(table: &[u32], lines: usize, h: u32, bytes: Offset, first: usize) -> Page
    requires { (entry_numbers * lines ≤ length table.now) × (lines ≤ 65536) × (first < lines) }
    ensures { result ≡ page_here table.now lines h bytes.0 first }
{
    let start = Offset(table[ENTRY_NUMBERS * first]);
    let end = end_before(table, lines, bytes, first + h as usize);
    Page {
        first: first as u32,
        start,
        end,
    }
}

// The three numbers of page k.
fn write_page(pages: &mut [u32], k: usize, p: Page)
    requires { page_numbers * k + page_numbers ≤ length pages.old }
    ensures { pages.new ≡ put_numbers pages.old (page_numbers * k) (of_page p) }
{
    let at = PAGE_NUMBERS * k;
    pages[at] = p.first;
    pages[at + 1] = p.start.0;
    pages[at + 2] = p.end.0;
}

// The pages from page `kept` on. Those before it are kept, and so is what lies past the last page.
pub fn write_pages(table: &[u32], lines: usize, h: u32, kept: usize, pages: &mut [u32])
    requires { Listable table.now lines h pages.old }
    ensures { pages.new ≡ written_past (page_numbers * kept) pages.old (of_all of_page (pages_of h (entries_in lines table.now))) }
{
    let bytes = text_length(table, lines);
    for k in kept..page_count(lines, h) {
        let first = k * h as usize;
        write_page(pages, k, page_at(table, lines, h, bytes, first));
    }
}
