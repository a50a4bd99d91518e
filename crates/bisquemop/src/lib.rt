// The calls for C, as a library; bisquemop_c hands each on to C. include/bisquemop.h says what each one does. Calls that look alike
// (an index and a file, a width that fits and one that is planned) do since C passes the settings as thirteen numbers to each.
#![tactic(auto)]

ghost use Rattle.std.specs.Prelude.{◌≡◌};
ghost use Rattle.meaning.specs.Settings.{settings_of};
ghost use Rattle.meaning.specs.Refusals.{checked_value};
ghost use Rattle.meaning.specs.Checks.{check_settings, check_text};
ghost use Rattle.meaning.specs.Answers.{answer_number, count_value, drawingValue, drawingCount, frameValue, frameRestEnd, frameRestCount, relayValue, relayCount, yValue, yPlace, found_value, readingValue, readingLength, choosingValue, choosingWhich, choosingLeft, pagingValue, pagingCount, fittingValue};
ghost use Rattle.meaning.specs.Calls.{tokens_answer, tokens_buffer, layout_answer, layout_table, drawing_answer, drawing_table, drawing_events, open_answer, frame_answer, frame_entry, affected_answer, relay_answer, relay_table, height_answer, y_answer, index_answer, index_after, index_again_after, find_answer, writing_answer, writing_file, reading_answer, reading_settings, reading_table};
ghost use Rattle.meaning.specs.PageCalls.{choosing_answer, paging_answer, paging_table, paging_list, paging_again_answer, paging_again_list};
ghost use Rattle.meaning.specs.ColumnCalls.{fitting_answer, planning_answer};
ghost use Rattle.bisquemop.specs.Edits.{edit_of, rest_from};

use again::relay::lay_again;
use c_answers::drawn::{drawing_count, drawing_value};
use c_answers::fitted::{
    choosing_left, choosing_value, choosing_which, fitting_value, paging_count, paging_value,
};
use c_answers::placed::{found_value, frame_value, put_rest, put_y, y_value};
use c_answers::read::{reading_length, reading_value};
use c_answers::relaid::{relay_count, relay_value};
use c_given::settings_from;
use checks::refusals::{answer_number, checked_value, count_value};
use checks::settings::check_settings;
use checks::text::check_text;
use choosing::choosing::choose;
use columns::fitting::columns_fit;
use columns::planning::plan_columns;
use files::reader::read_file;
use files::writer::write_file;
use frames::frame::one_line;
use frames::opening::open_text;
use heights::height::{line_y, text_height};
use index::finding::find_line;
use index::making::{make_index, make_index_again};
use layout::drawn::layout_with_events;
use layout::fresh::layout;
use look::affected::first_affected;
use meaning::counts::{Chars, Offset};
use meaning::edit::Edit;
use meaning::line::Rest;
use meaning::settings::Settings;
use paging::listed::{lay_pages, list_again};
use tokenizer::tokenize::tokenize;

pub fn bisquemop_check_settings(
    glyph: u32,
    width: u32,
    tab: u32,
    spacing: u32,
    paragraph: u32,
    base: u32,
    height: u32,
    top: i32,
    alignment: u32,
    vertical: u32,
    leading: u32,
    trailing: u32,
    wrap: u32,
    value: &mut u64,
) -> u32
    ensures value { result ≡ answer_number (check_settings (settings_of glyph width tab spacing paragraph base height top alignment vertical leading trailing wrap)) }
    ensures value_after { value.new ≡ checked_value (check_settings (settings_of glyph width tab spacing paragraph base height top alignment vertical leading trailing wrap)) }
{
    let s = settings_from(
        glyph, width, tab, spacing, paragraph, base, height, top, alignment, vertical, leading,
        trailing, wrap,
    );
    let checked = check_settings(s);
    *value = checked_value(checked);
    answer_number(&checked)
}

pub fn bisquemop_check_text(text: &[u8], value: &mut u64) -> u32
    ensures value { result ≡ answer_number (check_text text.now) }
    ensures value_after { value.new ≡ checked_value (check_text text.now) }
{
    let checked = check_text(text);
    *value = checked_value(checked);
    answer_number(&checked)
}

pub fn bisquemop_tokens(text: &[u8], tokens: &mut [u32], value: &mut u64) -> u32
    ensures value { result ≡ answer_number (tokens_answer text.now tokens.old) }
    ensures tokens_after { tokens.new ≡ tokens_buffer text.now tokens.old }
    ensures value_after { value.new ≡ count_value (tokens_answer text.now tokens.old) }
{
    let answer = tokenize(text, tokens);
    *value = count_value(answer);
    answer_number(&answer)
}

pub fn bisquemop_layout(
    glyph: u32,
    width: u32,
    tab: u32,
    spacing: u32,
    paragraph: u32,
    base: u32,
    height: u32,
    top: i32,
    alignment: u32,
    vertical: u32,
    leading: u32,
    trailing: u32,
    wrap: u32,
    text: &[u8],
    table: &mut [u32],
    value: &mut u64,
) -> u32
    ensures value { result ≡ answer_number (layout_answer (settings_of glyph width tab spacing paragraph base height top alignment vertical leading trailing wrap) text.now table.old) }
    ensures table_after { table.new ≡ layout_table (settings_of glyph width tab spacing paragraph base height top alignment vertical leading trailing wrap) text.now table.old }
    ensures value_after { value.new ≡ count_value (layout_answer (settings_of glyph width tab spacing paragraph base height top alignment vertical leading trailing wrap) text.now table.old) }
{
    let s = settings_from(
        glyph, width, tab, spacing, paragraph, base, height, top, alignment, vertical, leading,
        trailing, wrap,
    );
    let answer = layout(s, text, table);
    *value = count_value(answer);
    answer_number(&answer)
}

pub fn bisquemop_layout_events(
    glyph: u32,
    width: u32,
    tab: u32,
    spacing: u32,
    paragraph: u32,
    base: u32,
    height: u32,
    top: i32,
    alignment: u32,
    vertical: u32,
    leading: u32,
    trailing: u32,
    wrap: u32,
    text: &[u8],
    table: &mut [u32],
    events: &mut [u32],
    value: &mut u64,
    count: &mut u64,
) -> u32
    ensures value { result ≡ answer_number (drawing_answer (settings_of glyph width tab spacing paragraph base height top alignment vertical leading trailing wrap) text.now table.old events.old) }
    ensures table_after { table.new ≡ drawing_table (settings_of glyph width tab spacing paragraph base height top alignment vertical leading trailing wrap) text.now table.old events.old }
    ensures events_after { events.new ≡ drawing_events (settings_of glyph width tab spacing paragraph base height top alignment vertical leading trailing wrap) text.now table.old events.old }
    ensures value_after { value.new ≡ drawingValue (drawing_answer (settings_of glyph width tab spacing paragraph base height top alignment vertical leading trailing wrap) text.now table.old events.old) }
    ensures count_after { count.new ≡ drawingCount (drawing_answer (settings_of glyph width tab spacing paragraph base height top alignment vertical leading trailing wrap) text.now table.old events.old) count.old }
{
    let s = settings_from(
        glyph, width, tab, spacing, paragraph, base, height, top, alignment, vertical, leading,
        trailing, wrap,
    );
    let answer = layout_with_events(s, text, table, events);
    *value = drawing_value(answer);
    *count = drawing_count(answer, *count);
    answer_number(&answer)
}

pub fn bisquemop_open(
    glyph: u32,
    width: u32,
    tab: u32,
    spacing: u32,
    paragraph: u32,
    base: u32,
    height: u32,
    top: i32,
    alignment: u32,
    vertical: u32,
    leading: u32,
    trailing: u32,
    wrap: u32,
    text: &[u8],
    value: &mut u64,
) -> u32
    ensures value { result ≡ answer_number (open_answer (settings_of glyph width tab spacing paragraph base height top alignment vertical leading trailing wrap) text.now) }
    ensures value_after { value.new ≡ count_value (open_answer (settings_of glyph width tab spacing paragraph base height top alignment vertical leading trailing wrap) text.now) }
{
    let s = settings_from(
        glyph, width, tab, spacing, paragraph, base, height, top, alignment, vertical, leading,
        trailing, wrap,
    );
    let answer = open_text(s, text);
    *value = count_value(answer);
    answer_number(&answer)
}

pub fn bisquemop_one_line(
    glyph: u32,
    width: u32,
    tab: u32,
    spacing: u32,
    paragraph: u32,
    base: u32,
    height: u32,
    top: i32,
    alignment: u32,
    vertical: u32,
    leading: u32,
    trailing: u32,
    wrap: u32,
    text: &[u8],
    start: u32,
    end: u32,
    count: u32,
    entry: &mut [u32],
    value: &mut u64,
    stops: &mut u32,
    counts: &mut u32,
) -> u32
    ensures value { result ≡ answer_number (frame_answer (settings_of glyph width tab spacing paragraph base height top alignment vertical leading trailing wrap) text.now start (rest_from end count) entry.old) }
    ensures after { entry.new ≡ frame_entry (settings_of glyph width tab spacing paragraph base height top alignment vertical leading trailing wrap) text.now start (rest_from end count) entry.old }
    ensures value_after { value.new ≡ frameValue (frame_answer (settings_of glyph width tab spacing paragraph base height top alignment vertical leading trailing wrap) text.now start (rest_from end count) entry.old) }
    ensures stops_after { stops.new ≡ frameRestEnd (frame_answer (settings_of glyph width tab spacing paragraph base height top alignment vertical leading trailing wrap) text.now start (rest_from end count) entry.old) stops.old }
    ensures counts_after { counts.new ≡ frameRestCount (frame_answer (settings_of glyph width tab spacing paragraph base height top alignment vertical leading trailing wrap) text.now start (rest_from end count) entry.old) counts.old }
{
    let s = settings_from(
        glyph, width, tab, spacing, paragraph, base, height, top, alignment, vertical, leading,
        trailing, wrap,
    );
    let rest = Rest {
        end: Offset(end),
        count: Chars(count),
    };
    let answer = one_line(s, text, start, rest, entry);
    *value = frame_value(answer);
    put_rest(answer, stops, counts);
    answer_number(&answer)
}

pub fn bisquemop_first_affected(
    table: &[u32],
    lines: u64,
    a: u32,
    b: u32,
    inserted: u32,
    value: &mut u64,
) -> u32
    ensures value { result ≡ answer_number (affected_answer table.now lines (edit_of a b inserted)) }
    ensures value_after { value.new ≡ count_value (affected_answer table.now lines (edit_of a b inserted)) }
{
    let edit = Edit {
        from: Offset(a),
        to: Offset(b),
        inserted: Offset(inserted),
    };
    let answer = first_affected(table, lines as usize, edit);
    *value = count_value(answer);
    answer_number(&answer)
}

pub fn bisquemop_lay_again(
    glyph: u32,
    width: u32,
    tab: u32,
    spacing: u32,
    paragraph: u32,
    base: u32,
    height: u32,
    top: i32,
    alignment: u32,
    vertical: u32,
    leading: u32,
    trailing: u32,
    wrap: u32,
    part: &[u8],
    table: &mut [u32],
    lines: u64,
    a: u32,
    b: u32,
    inserted: u32,
    value: &mut u64,
    laid: &mut u64,
) -> u32
    ensures value { result ≡ answer_number (relay_answer (settings_of glyph width tab spacing paragraph base height top alignment vertical leading trailing wrap) part.now table.old lines (edit_of a b inserted)) }
    ensures table_after { table.new ≡ relay_table (settings_of glyph width tab spacing paragraph base height top alignment vertical leading trailing wrap) part.now table.old lines (edit_of a b inserted) }
    ensures value_after { value.new ≡ relayValue (relay_answer (settings_of glyph width tab spacing paragraph base height top alignment vertical leading trailing wrap) part.now table.old lines (edit_of a b inserted)) }
    ensures laid_after { laid.new ≡ relayCount (relay_answer (settings_of glyph width tab spacing paragraph base height top alignment vertical leading trailing wrap) part.now table.old lines (edit_of a b inserted)) laid.old }
{
    let s = settings_from(
        glyph, width, tab, spacing, paragraph, base, height, top, alignment, vertical, leading,
        trailing, wrap,
    );
    let edit = Edit {
        from: Offset(a),
        to: Offset(b),
        inserted: Offset(inserted),
    };
    let answer = lay_again(s, part, table, lines as usize, edit);
    *value = relay_value(answer);
    *laid = relay_count(answer, *laid);
    answer_number(&answer)
}

pub fn bisquemop_height(
    glyph: u32,
    width: u32,
    tab: u32,
    spacing: u32,
    paragraph: u32,
    base: u32,
    height: u32,
    top: i32,
    alignment: u32,
    vertical: u32,
    leading: u32,
    trailing: u32,
    wrap: u32,
    table: &[u32],
    lines: u64,
    value: &mut u64,
) -> u32
    ensures value { result ≡ answer_number (height_answer (settings_of glyph width tab spacing paragraph base height top alignment vertical leading trailing wrap) table.now lines) }
    ensures value_after { value.new ≡ count_value (height_answer (settings_of glyph width tab spacing paragraph base height top alignment vertical leading trailing wrap) table.now lines) }
{
    let s = settings_from(
        glyph, width, tab, spacing, paragraph, base, height, top, alignment, vertical, leading,
        trailing, wrap,
    );
    let answer = text_height(s, table, lines as usize);
    *value = count_value(answer);
    answer_number(&answer)
}

pub fn bisquemop_line_y(
    glyph: u32,
    width: u32,
    tab: u32,
    spacing: u32,
    paragraph: u32,
    base: u32,
    height: u32,
    top: i32,
    alignment: u32,
    vertical: u32,
    leading: u32,
    trailing: u32,
    wrap: u32,
    table: &[u32],
    lines: u64,
    line: u64,
    value: &mut u64,
    y: &mut i32,
) -> u32
    ensures value { result ≡ answer_number (y_answer (settings_of glyph width tab spacing paragraph base height top alignment vertical leading trailing wrap) table.now lines line) }
    ensures value_after { value.new ≡ yValue (y_answer (settings_of glyph width tab spacing paragraph base height top alignment vertical leading trailing wrap) table.now lines line) }
    ensures y_after { y.new ≡ yPlace (y_answer (settings_of glyph width tab spacing paragraph base height top alignment vertical leading trailing wrap) table.now lines line) y.old }
{
    let s = settings_from(
        glyph, width, tab, spacing, paragraph, base, height, top, alignment, vertical, leading,
        trailing, wrap,
    );
    let answer = line_y(s, table, lines as usize, line as usize);
    *value = y_value(answer);
    put_y(answer, y);
    answer_number(&answer)
}

pub fn bisquemop_index(
    glyph: u32,
    width: u32,
    tab: u32,
    spacing: u32,
    paragraph: u32,
    base: u32,
    height: u32,
    top: i32,
    alignment: u32,
    vertical: u32,
    leading: u32,
    trailing: u32,
    wrap: u32,
    table: &[u32],
    lines: u64,
    index: &mut [i32],
    value: &mut u64,
) -> u32
    ensures value { result ≡ answer_number (index_answer (settings_of glyph width tab spacing paragraph base height top alignment vertical leading trailing wrap) table.now lines index.old) }
    ensures index_after { index.new ≡ index_after (settings_of glyph width tab spacing paragraph base height top alignment vertical leading trailing wrap) table.now lines index.old }
    ensures value_after { value.new ≡ count_value (index_answer (settings_of glyph width tab spacing paragraph base height top alignment vertical leading trailing wrap) table.now lines index.old) }
{
    let s = settings_from(
        glyph, width, tab, spacing, paragraph, base, height, top, alignment, vertical, leading,
        trailing, wrap,
    );
    let answer = make_index(s, table, lines as usize, index);
    *value = count_value(answer);
    answer_number(&answer)
}

pub fn bisquemop_index_again(
    glyph: u32,
    width: u32,
    tab: u32,
    spacing: u32,
    paragraph: u32,
    base: u32,
    height: u32,
    top: i32,
    alignment: u32,
    vertical: u32,
    leading: u32,
    trailing: u32,
    wrap: u32,
    table: &[u32],
    lines: u64,
    first: u64,
    index: &mut [i32],
    value: &mut u64,
) -> u32
    ensures value { result ≡ answer_number (index_answer (settings_of glyph width tab spacing paragraph base height top alignment vertical leading trailing wrap) table.now lines index.old) }
    ensures index_after { index.new ≡ index_again_after (settings_of glyph width tab spacing paragraph base height top alignment vertical leading trailing wrap) table.now lines first index.old }
    ensures value_after { value.new ≡ count_value (index_answer (settings_of glyph width tab spacing paragraph base height top alignment vertical leading trailing wrap) table.now lines index.old) }
{
    let s = settings_from(
        glyph, width, tab, spacing, paragraph, base, height, top, alignment, vertical, leading,
        trailing, wrap,
    );
    let answer = make_index_again(s, table, lines as usize, first as usize, index);
    *value = count_value(answer);
    answer_number(&answer)
}

pub fn bisquemop_find_line(table: &[u32], lines: u64, index: &[i32], y: i32, value: &mut u64) -> u32
    ensures value { result ≡ answer_number (find_answer table.now lines index.now y) }
    ensures value_after { value.new ≡ found_value (find_answer table.now lines index.now y) }
{
    let answer = find_line(table, lines as usize, index, y);
    *value = found_value(answer);
    answer_number(&answer)
}

pub fn bisquemop_write_file(
    glyph: u32,
    width: u32,
    tab: u32,
    spacing: u32,
    paragraph: u32,
    base: u32,
    height: u32,
    top: i32,
    alignment: u32,
    vertical: u32,
    leading: u32,
    trailing: u32,
    wrap: u32,
    table: &[u32],
    lines: u64,
    file: &mut [u8],
    value: &mut u64,
) -> u32
    ensures value { result ≡ answer_number (writing_answer (settings_of glyph width tab spacing paragraph base height top alignment vertical leading trailing wrap) table.now lines file.old) }
    ensures file_after { file.new ≡ writing_file (settings_of glyph width tab spacing paragraph base height top alignment vertical leading trailing wrap) table.now lines file.old }
    ensures value_after { value.new ≡ count_value (writing_answer (settings_of glyph width tab spacing paragraph base height top alignment vertical leading trailing wrap) table.now lines file.old) }
{
    let s = settings_from(
        glyph, width, tab, spacing, paragraph, base, height, top, alignment, vertical, leading,
        trailing, wrap,
    );
    let answer = write_file(s, table, lines as usize, file);
    *value = count_value(answer);
    answer_number(&answer)
}

pub fn bisquemop_read_file(
    file: &[u8],
    settings: &mut [u32],
    table: &mut [u32],
    value: &mut u64,
    bytes: &mut u64,
) -> u32
    ensures value { result ≡ answer_number (reading_answer file.now settings.old table.old) }
    ensures settings_after { settings.new ≡ reading_settings file.now settings.old table.old }
    ensures table_after { table.new ≡ reading_table file.now settings.old table.old }
    ensures value_after { value.new ≡ readingValue (reading_answer file.now settings.old table.old) }
    ensures bytes_after { bytes.new ≡ readingLength (reading_answer file.now settings.old table.old) bytes.old }
{
    let answer = read_file(file, settings, table);
    *value = reading_value(answer);
    *bytes = reading_length(answer, *bytes);
    answer_number(&answer)
}

pub fn bisquemop_choose<'a>(
    glyph: u32,
    width: u32,
    tab: u32,
    spacing: u32,
    paragraph: u32,
    base: u32,
    height: u32,
    top: i32,
    alignment: u32,
    vertical: u32,
    leading: u32,
    trailing: u32,
    wrap: u32,
    long: &'a [u8],
    short: &'a [u8],
    h: u32,
    value: &mut u64,
    which: &mut u32,
    left: &mut u64,
) -> u32
    ensures value { result ≡ answer_number (choosing_answer (settings_of glyph width tab spacing paragraph base height top alignment vertical leading trailing wrap) h long.now short.now) }
    ensures value_after { value.new ≡ choosingValue (choosing_answer (settings_of glyph width tab spacing paragraph base height top alignment vertical leading trailing wrap) h long.now short.now) }
    ensures which_after { which.new ≡ choosingWhich (choosing_answer (settings_of glyph width tab spacing paragraph base height top alignment vertical leading trailing wrap) h long.now short.now) which.old }
    ensures left_after { left.new ≡ choosingLeft (choosing_answer (settings_of glyph width tab spacing paragraph base height top alignment vertical leading trailing wrap) h long.now short.now) left.old }
{
    let s = settings_from(
        glyph, width, tab, spacing, paragraph, base, height, top, alignment, vertical, leading,
        trailing, wrap,
    );
    let answer = choose(s, long, short, h);
    *value = choosing_value(answer);
    *which = choosing_which(answer, *which);
    *left = choosing_left(answer, *left);
    answer_number(&answer)
}

pub fn bisquemop_pages(
    glyph: u32,
    width: u32,
    tab: u32,
    spacing: u32,
    paragraph: u32,
    base: u32,
    height: u32,
    top: i32,
    alignment: u32,
    vertical: u32,
    leading: u32,
    trailing: u32,
    wrap: u32,
    text: &[u8],
    h: u32,
    table: &mut [u32],
    pages: &mut [u32],
    value: &mut u64,
    count: &mut u64,
) -> u32
    ensures value { result ≡ answer_number (paging_answer (settings_of glyph width tab spacing paragraph base height top alignment vertical leading trailing wrap) h text.now table.old pages.old) }
    ensures table_after { table.new ≡ paging_table (settings_of glyph width tab spacing paragraph base height top alignment vertical leading trailing wrap) h text.now table.old pages.old }
    ensures pages_after { pages.new ≡ paging_list (settings_of glyph width tab spacing paragraph base height top alignment vertical leading trailing wrap) h text.now table.old pages.old }
    ensures value_after { value.new ≡ pagingValue (paging_answer (settings_of glyph width tab spacing paragraph base height top alignment vertical leading trailing wrap) h text.now table.old pages.old) }
    ensures count_after { count.new ≡ pagingCount (paging_answer (settings_of glyph width tab spacing paragraph base height top alignment vertical leading trailing wrap) h text.now table.old pages.old) count.old }
{
    let s = settings_from(
        glyph, width, tab, spacing, paragraph, base, height, top, alignment, vertical, leading,
        trailing, wrap,
    );
    let answer = lay_pages(s, text, h, table, pages);
    *value = paging_value(answer);
    *count = paging_count(answer, *count);
    answer_number(&answer)
}

pub fn bisquemop_pages_again(
    table: &[u32],
    lines: u64,
    h: u32,
    first: u64,
    pages: &mut [u32],
    value: &mut u64,
) -> u32
    ensures value { result ≡ answer_number (paging_again_answer table.now lines h pages.old) }
    ensures pages_after { pages.new ≡ paging_again_list table.now lines h first pages.old }
    ensures value_after { value.new ≡ count_value (paging_again_answer table.now lines h pages.old) }
{
    let answer = list_again(table, lines as usize, h, first as usize, pages);
    *value = count_value(answer);
    answer_number(&answer)
}

pub fn bisquemop_columns_fit(
    glyph: u32,
    width: u32,
    tab: u32,
    spacing: u32,
    paragraph: u32,
    base: u32,
    height: u32,
    top: i32,
    alignment: u32,
    vertical: u32,
    leading: u32,
    trailing: u32,
    wrap: u32,
    text: &[u8],
    h: u32,
    value: &mut u64,
) -> u32
    ensures value { result ≡ answer_number (fitting_answer (settings_of glyph width tab spacing paragraph base height top alignment vertical leading trailing wrap) h text.now) }
    ensures value_after { value.new ≡ fittingValue (fitting_answer (settings_of glyph width tab spacing paragraph base height top alignment vertical leading trailing wrap) h text.now) }
{
    let s = settings_from(
        glyph, width, tab, spacing, paragraph, base, height, top, alignment, vertical, leading,
        trailing, wrap,
    );
    let answer = columns_fit(s, text, h);
    *value = fitting_value(answer);
    answer_number(&answer)
}

pub fn bisquemop_columns_plan(
    glyph: u32,
    width: u32,
    tab: u32,
    spacing: u32,
    paragraph: u32,
    base: u32,
    height: u32,
    top: i32,
    alignment: u32,
    vertical: u32,
    leading: u32,
    trailing: u32,
    wrap: u32,
    text: &[u8],
    h: u32,
    value: &mut u64,
) -> u32
    ensures value { result ≡ answer_number (planning_answer (settings_of glyph width tab spacing paragraph base height top alignment vertical leading trailing wrap) h text.now) }
    ensures value_after { value.new ≡ found_value (planning_answer (settings_of glyph width tab spacing paragraph base height top alignment vertical leading trailing wrap) h text.now) }
{
    let s = settings_from(
        glyph, width, tab, spacing, paragraph, base, height, top, alignment, vertical, leading,
        trailing, wrap,
    );
    let answer = plan_columns(s, text, h);
    *value = found_value(answer);
    answer_number(&answer)
}
