//! Tokens: the words, numbers and marks that a text is made of, as parts of the text that carry their place.
ghost use Rattle.std.specs.Prelude.{◌≡◌, ℕ, ◌≤◌, Bool, length};
ghost use Rattle.table.specs.Bytes.{is_name_byte, is_number_byte, stretch, Tells};
ghost use Rattle.table.specs.Lines.{decimal};
ghost use Rattle.table.specs.Tokens.{lexeme, lexeme_of, place_of};

/// The most bytes that a name has.
const NAME_BYTES: usize = 12;

/// The most digits that a number has.
const NUMBER_DIGITS: usize = 7;

/// What stands between words: a bracket, a space or a line's end.
#[derive(Clone, Copy, PartialEq, Eq)]
pub enum Mark {
    Open,
    Close,
    Space,
    LineEnd,
}

/// What a text begins with. Each token has its place, and a word or a number is the part of the text itself.
#[derive(Clone, Copy)]
pub enum Token<'a> {
    Word(&'a [u8], usize),
    /// The digits, their place, and the number that they write.
    Number(&'a [u8], usize, u32),
    Sign(Mark, usize),
    /// A byte that begins nothing.
    Other(usize),
    /// The text is over.
    End(usize),
}

/// Whether the byte may stand at this position of a name.
fn name_byte(byte: u8, position: usize) -> bool
    ensures { result ≡ is_name_byte position byte }
{
    match byte {
        b'a'..=b'z' => position < NAME_BYTES,
        b'0'..=b'9' if position > 0 && position < NAME_BYTES => true,
        _ => false,
    }
}

/// Whether the byte may stand at this position of a number.
fn number_byte(byte: u8, position: usize) -> bool
    ensures { result ≡ is_number_byte position byte }
{
    match byte {
        b'1'..=b'9' => position < NUMBER_DIGITS,
        b'0' if position > 0 && position < NUMBER_DIGITS => true,
        _ => false,
    }
}

// By the first byte and what follows it, never turning back. Inlined at both calls, a table is read in a tenth less time.
/// How many bytes at the front may stand there, each at its position.
#[inline(always)]
fn front_size<F: Fn(u8, usize) -> bool>(text: &[u8], may_stand: F) -> usize
    requires { F.IsAlwaysCallable may_stand }
    ensures within { result ≤ length text.now }
    ensures value { (class : ℕ → ℕ → Bool) → Tells (F.post may_stand) class → result ≡ stretch class 0 text.now }
{
    let mut rest = text;
    let mut count: usize = 0;
    while let [first, after @ ..] = rest {
        if !may_stand(*first, count) {
            return count;
        }
        count += 1;
        rest = after;
    }
    count
}

/// The number that these digits write, of which there are as many as a number may have.
fn number_of(digits: &[u8]) -> u32
    requires { stretch is_number_byte 0 digits.now ≡ length digits.now }
    ensures { result ≡ decimal digits.now }
{
    let mut value = 0;
    for digit in digits {
        value = value * 10 + u32::from(*digit - b'0');
    }
    value
}

/// What the text, which begins at `place`, begins with.
pub(crate) fn first_token(text: &[u8], place: usize) -> Token<'_>
    ensures value { lexeme_of result ≡ lexeme text.now }
    ensures place { place_of result ≡ place }
{
    match text {
        [] => Token::End(place),
        [b'(', ..] => Token::Sign(Mark::Open, place),
        [b')', ..] => Token::Sign(Mark::Close, place),
        [b' ', ..] => Token::Sign(Mark::Space, place),
        [b'\n', ..] => Token::Sign(Mark::LineEnd, place),
        [b'a'..=b'z', ..] => Token::Word(&text[..front_size(text, name_byte)], place),
        [b'1'..=b'9', ..] => {
            let digits = &text[..front_size(text, number_byte)];
            Token::Number(digits, place, number_of(digits))
        }
        [_, ..] => Token::Other(place),
    }
}
