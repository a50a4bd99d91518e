// What a byte tells before any character is decoded: texts are mostly of ASCII, where a byte is a character (rule 2).
ghost use Rattle.std.specs.Prelude.{◌≡◌};
ghost use Rattle.parser.specs.Ascii.{plain, plain_at, space_at, feed_at, is_ender, ender_at};

// 21 to 7F are of words, and none of them glues.
pub fn is_plain(b: u8) -> bool
    ensures { result ≡ plain b }
{
    (0x20 < b) & (b < 0x80)
}

// Does such a byte stand at a position.
pub fn plain_at(text: &[u8], at: usize) -> bool
    ensures { result ≡ plain_at text.now at }
{
    if at < text.len() {
        return is_plain(text[at]);
    }
    false
}

// Does a space stand at a position.
pub fn space_at(text: &[u8], at: usize) -> bool
    ensures { result ≡ space_at text.now at }
{
    if at < text.len() {
        return text[at] == 0x20;
    }
    false
}

// Does a line feed stand at a position.
pub fn feed_at(text: &[u8], at: usize) -> bool
    ensures { result ≡ feed_at text.now at }
{
    if at < text.len() {
        return text[at] == 0x0A;
    }
    false
}

fn is_ender(b: u8) -> bool
    ensures { result ≡ is_ender b }
{
    (b == 0x20) | (b == 0x0A)
}

// Does a word end at a position, by what words mostly end with: a space, a line feed, or the text's end.
pub fn ends_at(text: &[u8], at: usize) -> bool
    ensures { result ≡ ender_at text.now at }
{
    if at < text.len() {
        return is_ender(text[at]);
    }
    true
}

// Does a byte stand at a position that leads a character from U+3000 on: where no spaces are between words, they are long. A guess at
// what is there, which nothing rests on.
fn far_at(text: &[u8], at: usize) -> bool {
    if at < text.len() {
        return 0xE3 <= text[at];
    }
    false
}

// Does a text begin with C2, which leads what glues: such a word is read and not told. A guess like `far_at`.
fn may_glue(text: &[u8]) -> bool {
    if 0 < text.len() {
        return text[0] == 0xC2;
    }
    false
}

// May a word go on at a position: the byte before it is of words or not of ASCII. A guess like `far_at`.
fn may_go_on(text: &[u8], at: usize) -> bool {
    if at == 0 {
        return may_glue(text);
    }
    let last = at - 1;
    if last < text.len() {
        return 0x20 < text[last];
    }
    false
}

// Is the token at a position worth to be known before anything reads it: a word may go on there, or be long.
pub fn worth_knowing(text: &[u8], at: usize) -> bool {
    if may_go_on(text, at) {
        return true;
    }
    far_at(text, at)
}
