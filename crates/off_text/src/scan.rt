//! The words of a text and its lines, by places.

ghost use Rattle.std.specs.Prelude.{◌≡◌, ◌<◌, ◌≤◌, ◌==◌, not, true, length, slice_index, MatchOption, []};
ghost use Rattle.off_text.specs.Words.{is_blank};
ghost use Rattle.off_text.specs.Scans.{is_inner, first_failing, line_end_at, rest_at, beyond_at, IsNext};

/// The place of a word's first byte, and of the byte after its last.
#[derive(Clone, Copy)]
pub struct Span {
    pub start: usize,
    pub end: usize,
}

fn is_blank(b: u8) -> bool
    ensures { result ≡ is_blank b }
{
    b == b' ' || b == b'\t' || b == b'\r' || b == b'\n'
}

/// Whether a byte outside comments belongs to a word.
fn is_inner(b: u8) -> bool
    ensures { result ≡ is_inner b }
{
    b != b'#' && !is_blank(b)
}

/// The place of the first line feed from `from` on, or of the end.
fn line_end(bytes: &[u8], from: usize) -> usize
    requires { from ≤ length bytes.now }
    ensures place { result ≡ line_end_at bytes.now from }
    ensures low { from ≤ result }
    ensures high { result ≤ length bytes.now }
{
    for i in from..bytes.len() {
        if bytes[i] == b'\n' {
            return i;
        }
    }
    bytes.len()
}

/// The place of the first byte from `from` on that belongs to no word, or of the end.
fn word_end(bytes: &[u8], from: usize) -> usize
    requires { from ≤ length bytes.now }
    ensures { result ≡ first_failing is_inner bytes.now from }
{
    for i in from..bytes.len() {
        if !is_inner(bytes[i]) {
            return i;
        }
    }
    bytes.len()
}

/// The place where the next word begins, or of the end.
fn word_start(bytes: &[u8], from: usize) -> usize
    requires { from ≤ length bytes.now }
    ensures high { result ≤ length bytes.now }
    ensures words { rest_at bytes.now result ≡ rest_at bytes.now from }
    ensures begins { result < length bytes.now → is_inner (slice_index bytes.now result) ≡ true }
{
    let mut at = from;
    while at < bytes.len() {
        if bytes[at] == b'#' {
            at = line_end(bytes, at);
        } else if is_blank(bytes[at]) {
            at += 1;
        } else {
            return at;
        }
    }
    at
}

/// The next word from `from` on, which is the end of a word or the begin of a line.
pub fn next_word(bytes: &[u8], from: usize) -> Option<Span>
    requires { from ≤ length bytes.now }
    ensures { MatchOption result (rest_at bytes.now from ≡ []) (λ w. IsNext bytes.now from w) }
{
    let start = word_start(bytes, from);
    if start < bytes.len() {
        let end = word_end(bytes, start);
        Some(Span { start, end })
    } else {
        None
    }
}

/// The place after the next line feed from `from` on, or of the end.
pub fn next_line(bytes: &[u8], from: usize) -> usize
    requires { from ≤ length bytes.now }
    ensures high { result ≤ length bytes.now }
    ensures words { rest_at bytes.now result ≡ beyond_at bytes.now from }
{
    let end = line_end(bytes, from);
    if end < bytes.len() { end + 1 } else { end }
}
