#![tactic(auto)]

// The tokens of a text, one after the other, and the number that a token's bytes stand for.
ghost use Rattle.std.specs.Prelude.{position, ◌≡◌, false, ◌||◌, ◌+◌, ◌≤◌, length, drop};
ghost use Rattle.notation.specs.Tokens.{ends, comment, newlines, beginning, token_length, token_at};
ghost use Rattle.notation.specs.Words.{word_of};
ghost use Rattle.notation.specs.Items.{capped};
ghost use Rattle.notation.specs.Results.{as_word};

use notation::{Place, Token, WordFault};

// A separator, or the beginning of a comment. (Not `matches!`: LLVM then takes each byte between
// tokens through a table of jumps, and `pack` took up to 1.4 times as long.)
#[tactic(auto, unfolding(notation::specs::Tokens::ends, notation::specs::Tokens::separator))]
fn ends(b: u8) -> bool
    ensures { result ≡ ends b }
{
    b == b' ' || b == b',' || b == b'\t' || b == b'\n' || b == b'\r' || b == b'#'
}

// Whether a byte stands between tokens, where c says whether it is in a comment.
fn between(c: bool, b: u8) -> bool
    ensures { result ≡ (c || ends b) }
{
    c || ends(b)
}

// Whether the byte after b is in a comment.
#[tactic(auto, unfolding(notation::specs::Tokens::comment))]
fn comment(c: bool, b: u8) -> bool
    ensures { result ≡ comment c b }
{
    match b {
        b'\n' => false,
        b'#' => true,
        _ => c,
    }
}

// How many lines end with a byte.
#[tactic(auto, unfolding(notation::specs::Tokens::newlines))]
fn newlines(b: u8) -> usize
    ensures { result ≡ newlines b }
{
    usize::from(b == b'\n')
}

// Where the next token begins, or the text's end.
fn beginning(source: &[u8], from: Place) -> Place
    requires { (from.lines ≤ from.at) × (from.at ≤ length source.now) }
    ensures { result ≡ beginning (drop from.at source.now) false from.lines from.at }
{
    let mut ended = from.lines;
    let mut c = false;
    for at in from.at..source.len() {
        let b = source[at];
        if !between(c, b) {
            return Place { lines: ended, at };
        }
        c = comment(c, b);
        ended += newlines(b);
    }
    Place {
        lines: ended,
        at: source.len(),
    }
}

// The first byte that ends a token.
fn first_end(bytes: &[u8]) -> Option<usize>
    ensures { result ≡ position ends bytes.now }
{
    bytes.iter().position(|b| ends(*b))
}

// Where the token that begins at a place ends.
fn token_end(source: &[u8], from: usize) -> usize
    requires { from ≤ length source.now }
    ensures { result ≡ from + token_length (drop from source.now) }
{
    match first_end(&source[from..]) {
        Some(count) => from + count,
        None => source.len(),
    }
}

// The first token from a place on; an empty one at the text's end. (An Option would not say how
// many lines end before that.)
pub fn next_token(source: &[u8], place: Place) -> Token
    requires { (place.lines ≤ place.at) × (place.at ≤ length source.now) }
    ensures { result ≡ token_at source.now place.lines place.at }
{
    let Place { lines, at: from } = beginning(source, place);
    let to = token_end(source, from);
    Token { lines, from, to }
}

// The largest number of three groups of seven bits.
const MAX_NUMBER: u32 = 2097151;

// A number, or one more than the largest for all above it.
#[tactic(auto, unfolding(notation::specs::Items::capped))]
fn capped(v: u32) -> u32
    ensures { (result ≡ capped v) × (result ≤ 2097152) }
{
    v.min(MAX_NUMBER + 1)
}

// What a token's bytes are.
pub fn read_word(bytes: &[u8]) -> Result<u32, WordFault>
    ensures { as_word result ≡ word_of bytes.now }
{
    let mut value: u32 = 0;
    for b in bytes {
        if !b.is_ascii_digit() {
            return Err(WordFault::NotNumber);
        }
        value = capped(value * 10 + u32::from(*b - b'0'));
    }
    if MAX_NUMBER < value {
        return Err(WordFault::TooLarge);
    }
    Ok(value)
}
