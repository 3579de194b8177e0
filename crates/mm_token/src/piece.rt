// The pieces of a text: its tokens, its white space, its comments and its directives.

ghost use Rattle.std.specs.Prelude.{◌≡◌, ◌≢◌, ◌+◌, ◌<◌, ◌≤◌, ◌==◌, not, false, length, take, IsTrue, MatchOption};
ghost use Rattle.mm_token.specs.Characters.{sort_of, is_punctuation as punctuation, continues, is_pair, begins_pair};
ghost use Rattle.mm_token.specs.Pieces.{is_open, is_closed, goes_on_line, Begins, HasNone};
ghost use Rattle.mm_token.specs.Runs.{behind_line, IsRunOf, MayBeMark, BeginsWith};
ghost use Rattle.mm_token.specs.declared.piece.Sort.TheVariants.{Slash};

/// What a character may begin.
#[derive(Clone, Copy)]
pub enum Sort {
    Blank,
    Slash,
    Punctuation,
    Digit,
    Letter,
    Hash,
    Other,
}

/// What a piece of a text is.
#[derive(Clone, Copy)]
pub enum Shape {
    /// One character of white space.
    Blank,
    /// A comment to the end of its line.
    Line,
    /// A comment between `/*` and `*/`.
    Block,
    /// A comment without an end.
    Open,
    /// An identifier or a reserved word.
    Word,
    /// A digit, and all that an identifier's characters add to it.
    Number,
    Mark,
    /// A line that begins with `#`, up to a `//` comment.
    Directive,
}

/// Whether the character is a mark, or begins one; but a slash is told apart.
fn is_punctuation(c: char) -> bool
    ensures { result ≡ punctuation c }
{
    matches!(
        c,
        '{' | '}'
            | '('
            | ')'
            | ';'
            | ','
            | '.'
            | '~'
            | '?'
            | ':'
            | '&'
            | '|'
            | '+'
            | '-'
            | '='
            | '<'
            | '>'
            | '!'
            | '*'
            | '%'
    )
}

/// What a character may begin.
pub fn class_of(c: u32) -> Sort
    ensures { result ≡ sort_of c }
{
    let Some(c) = char::from_u32(c) else {
        return Sort::Other;
    };
    match c {
        ' ' | '\t' | '\n' | '\u{b}' | '\u{c}' | '\r' => Sort::Blank,
        '/' => Sort::Slash,
        '0'..='9' => Sort::Digit,
        '#' => Sort::Hash,
        '_' => Sort::Letter,
        _ => {
            if is_punctuation(c) {
                Sort::Punctuation
            } else if unicode_ident::is_xid_start(c) {
                Sort::Letter
            } else {
                Sort::Other
            }
        }
    }
}

/// Whether an identifier may go on with the character.
pub fn goes_on(c: u32) -> bool
    ensures { result ≡ continues c }
{
    match char::from_u32(c) {
        Some(c) => c == '_' || unicode_ident::is_xid_continue(c),
        None => false,
    }
}

/// How many characters at the front an identifier may go on with.
fn run_len(text: &[u32]) -> usize
    ensures { IsRunOf continues text.now result }
{
    let mut n = 0;
    while n < text.len() && goes_on(text[n]) {
        n += 1;
    }
    n
}

/// How many characters stand before the end of the line.
fn line_len(text: &[u32]) -> usize
    ensures { IsRunOf (λ c. not (c == 10)) text.now result }
{
    let mut n = 0;
    while n < text.len() && text[n] != 10 {
        n += 1;
    }
    n
}

/// Whether a directive goes on with the first character. A `//` in quotes begins no comment.
fn goes_on_with(text: &[u32], quoted: bool) -> bool
    ensures { result ≡ goes_on_line quoted text.now }
{
    match text {
        [] => false,
        [first] => *first != 10,
        [first, second, ..] => *first != 10 && (quoted || *first != 47 || *second != 47),
    }
}

/// What stands behind a directive, of which the `#` was read: nothing, the line's end or a `//` comment.
fn past_line(text: &[u32]) -> &[u32]
    ensures { result.now ≡ behind_line false text.now }
{
    let mut n = 0;
    let mut quoted = false;
    while n < text.len() && goes_on_with(&text[n..], quoted) {
        if text[n] == 34 {
            quoted = !quoted;
        }
        n += 1;
    }
    &text[n..]
}

/// Where the first end of a comment ends.
fn comment_len(text: &[u32]) -> Option<usize>
    ensures { MatchOption result (IsTrue (is_open text.now)) (λ n. (n ≤ length text.now) × IsTrue (is_closed (take n text.now))) }
{
    let mut n = 0;
    while n + 1 < text.len() {
        if text[n] == 42 && text[n + 1] == 47 {
            return Some(n + 2);
        }
        n += 1;
    }
    None
}

/// Whether two characters are one mark.
fn is_double(c: u32, d: u32) -> bool
    ensures { result ≡ is_pair c d }
{
    match d {
        61 => matches!(c, 61 | 60 | 62 | 33 | 43 | 45 | 42 | 47 | 37),
        62 => c == 45,
        _ => c == d && matches!(c, 58 | 38 | 124 | 43 | 45),
    }
}

/// Whether the first two characters are one mark.
fn is_double_next(text: &[u32]) -> bool
    ensures { result ≡ begins_pair text.now }
{
    text.len() > 1 && is_double(text[0], text[1])
}

/// A mark.
fn mark(text: &[u32], fresh: bool) -> Option<(Shape, &[u32])>
    requires some { 0 < length text.now }
    requires head { MayBeMark text.now }
    ensures { MatchOption result (HasNone fresh text.now) (λ p. Begins fresh text.now p.0 p.1.now) }
{
    if is_double_next(text) {
        return Some((Shape::Mark, &text[2..]));
    }
    if text[0] == 124 {
        return None;
    }
    Some((Shape::Mark, &text[1..]))
}

/// A piece that begins with a slash.
fn after_slash(text: &[u32], fresh: bool) -> Option<(Shape, &[u32])>
    requires some { 0 < length text.now }
    requires slash { BeginsWith text.now Slash }
    ensures { MatchOption result (HasNone fresh text.now) (λ p. Begins fresh text.now p.0 p.1.now) }
{
    if text.len() < 2 {
        return mark(text, fresh);
    }
    let second = text[1];
    if second == 47 {
        let rest = &text[2..];
        return Some((Shape::Line, &rest[line_len(rest)..]));
    }
    if second == 42 {
        let rest = &text[2..];
        return match comment_len(rest) {
            Some(n) => Some((Shape::Block, &rest[n..])),
            None => Some((Shape::Open, &[])),
        };
    }
    mark(text, fresh)
}

/// The longest piece at the front, and what follows it. A directive begins only where `fresh`.
pub fn piece(text: &[u32], fresh: bool) -> Option<(Shape, &[u32])>
    ensures { MatchOption result (HasNone fresh text.now) (λ p. Begins fresh text.now p.0 p.1.now) }
{
    match text {
        [] => None,
        [first, rest @ ..] => match class_of(*first) {
            Sort::Blank => Some((Shape::Blank, rest)),
            Sort::Letter => Some((Shape::Word, &rest[run_len(rest)..])),
            Sort::Digit => Some((Shape::Number, &rest[run_len(rest)..])),
            Sort::Slash => after_slash(text, fresh),
            Sort::Punctuation => mark(text, fresh),
            Sort::Hash => {
                if fresh {
                    Some((Shape::Directive, past_line(rest)))
                } else {
                    None
                }
            }
            Sort::Other => None,
        },
    }
}
