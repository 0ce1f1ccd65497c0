//! How the cursor begins, and the steps that it moves by: a mark, a keyword, a name, a number and a field.
ghost use Rattle.std.specs.Prelude.{◌≡◌, ℕ, ◌+◌, ◌^◌, ◌<◌, ◌≤◌, [], ◌∷◌, length, drop, codes, MatchResult};
ghost use Rattle.table.specs.Form.{mark, word};
ghost use Rattle.table.specs.Lines.{a_name, a_number, a_field, exactly, decimal};
ghost use Rattle.table.specs.Steps.{Moves, MovesBy, Halts, Title, shared};
ghost use Rattle.table.specs.Tokens.{byte_of, lexeme, lexeme_of, place_of};

use crate::cursor::Cursor;
use crate::token::{Mark, Token, first_token};

/// How many bytes at the front the two have in common.
fn common_front(left: &[u8], right: &[u8]) -> usize
    ensures value { result ≡ shared left.now right.now }
    ensures bound { (result ≤ length left.now) × (result ≤ length right.now) }
{
    left.iter()
        .zip(right)
        .take_while(|(one, other)| one == other)
        .count()
}

// What fails answers the place alone, since there is one way to fail: the caller knows the line, and makes the refusal.
impl<'a> Cursor<'a> {
    /// At the start of a text.
    pub(crate) fn new(text: &'a [u8]) -> Cursor<'a>
        ensures rest { result.rest.now ≡ text.now }
        ensures place { result.place ≡ 0 }
    {
        Cursor {
            rest: text,
            place: 0,
        }
    }

    /// The cursor so many bytes on.
    fn after(self, count: usize) -> Cursor<'a>
        requires { count ≤ length self.rest.now }
        ensures rest { result.rest.now ≡ drop count self.entry.rest.now }
        ensures place { result.place ≡ self.entry.place + count }
    {
        Cursor {
            rest: &self.rest[count..],
            place: self.place + count,
        }
    }

    // Inlined at its four uses, a table is read in a third less time.
    /// What stands here.
    #[inline(always)]
    fn token(self) -> Token<'a>
        ensures value { lexeme_of result ≡ lexeme self.entry.rest.now }
        ensures place { place_of result ≡ self.entry.place }
    {
        first_token(self.rest, self.place)
    }

    /// Reads a mark.
    pub(crate) fn mark(self, want: Mark) -> Result<Cursor<'a>, usize>
        ensures { MatchResult result (λ d. Moves (mark (byte_of want) ∷ []) self.entry [] d) (λ q. Halts (mark (byte_of want) ∷ []) self.entry q) }
    {
        match self.token() {
            Token::Sign(found, _) if found == want => Ok(self.after(1)),
            _ => Err(self.place),
        }
    }

    /// Reads a keyword, by the word that stands there.
    pub(crate) fn keyword(self, want: &[u8]) -> Result<Cursor<'a>, usize>
        requires { Title want.now }
        ensures { MatchResult result (λ d. Moves (exactly want.now) self.entry [] d) (λ q. Halts (exactly want.now) self.entry q) }
    {
        match self.token() {
            Token::Word(word, at) => {
                let same = common_front(word, want);
                if same == want.len() {
                    Ok(self.after(same))
                } else {
                    Err(at + same)
                }
            }
            _ => Err(self.place),
        }
    }

    /// Reads a name.
    pub(crate) fn name(self) -> Result<(&'a [u8], Cursor<'a>), usize>
        ensures { MatchResult result (λ v. Moves (word a_name ∷ []) self.entry (v.0.now ∷ []) v.1) (λ q. Halts (word a_name ∷ []) self.entry q) }
    {
        match self.token() {
            Token::Word(word, _) => Ok((word, self.after(word.len()))),
            _ => Err(self.place),
        }
    }

    /// Reads a number.
    pub(crate) fn number(self) -> Result<(u32, Cursor<'a>), usize>
        ensures { MatchResult result (λ v. MovesBy (word a_number ∷ []) self.entry v.0 v.1) (λ q. Halts (word a_number ∷ []) self.entry q) }
    {
        match self.token() {
            Token::Number(digits, _, value) => Ok((value, self.after(digits.len()))),
            _ => Err(self.place),
        }
    }

    /// Reads a field: a title and its number, in brackets, after a space.
    pub(crate) fn field(self, title: &[u8]) -> Result<(u32, Cursor<'a>), usize>
        requires { Title title.now }
        ensures { MatchResult result (λ v. MovesBy (a_field title.now) self.entry v.0 v.1) (λ q. Halts (a_field title.now) self.entry q) }
    {
        let bracket = self.mark(Mark::Space)?;
        let named = bracket.mark(Mark::Open)?;
        let gap = named.keyword(title)?;
        let digits = gap.mark(Mark::Space)?;
        let (value, close) = digits.number()?;
        let next = close.mark(Mark::Close)?;
        Ok((value, next))
    }
}
