// Words of a line, as tokens that borrow the text.
ghost use Rattle.std.specs.Prelude.{◌≡◌, [], ◌∷◌, MatchOption};
ghost use Rattle.std.specs.Option.{option_map};
ghost use Rattle.text.specs.Pieces.{pieces};
ghost use Rattle.text.specs.Tokens.{as_word, as_three, Classified, CutAt};
ghost use Rattle.text.specs.Words.{numeral, flag, by_of, named, three_words};

use crate::entries::By;

// A part of the text, with its line.
#[derive(Clone, Copy)]
pub struct Span<'a> {
    pub text: &'a [u8],
    pub line: usize,
}

#[derive(Clone, Copy)]
pub enum Token<'a> {
    // one or two digits, no leading zero
    Number(u8, Span<'a>),
    // a to z, from 0
    Letter(u8, Span<'a>),
    // '>', '*', '.' or '#'
    Sign(char, Span<'a>),
    // anything else
    Name(Span<'a>),
}

// The words of a line of three.
#[derive(Clone, Copy)]
pub struct Trio<'a> {
    pub first: Token<'a>,
    pub second: Token<'a>,
    pub third: Token<'a>,
}

impl<'a> Span<'a> {
    // What stands before the first such byte and what behind, or none where there is no such byte.
    pub(crate) fn split_once(self, at: u8) -> Option<(Span<'a>, Span<'a>)>
        ensures { MatchOption result (pieces at self.entry.text.now ≡ self.entry.text.now ∷ []) (λ c. CutAt at self.entry c.0 c.1) }
    {
        let i = self.text.iter().position(|&b| b == at)?;
        let head = Span {
            text: &self.text[..i],
            ..self
        };
        let rest = Span {
            text: &self.text[i + 1..],
            ..self
        };
        Some((head, rest))
    }

    pub(crate) fn token(self) -> Token<'a>
        ensures { Classified self.entry.text.now self.entry.line result }
    {
        match self.text {
            [d @ b'0'..=b'9'] => Token::Number(*d - b'0', self),
            [b @ b'a'..=b'z'] => Token::Letter(*b - b'a', self),
            [b @ (b'>' | b'*' | b'.' | b'#')] => Token::Sign(*b as char, self),
            [d @ b'1'..=b'9', e @ b'0'..=b'9'] => Token::Number(
                10 * (*d - b'0') + (*e - b'0'),
                self,
            ),
            _ => Token::Name(self),
        }
    }

    // The words of a line that has three.
    pub(crate) fn three_words(self) -> Option<Trio<'a>>
        ensures { option_map as_three result ≡ three_words self.entry.text.now }
    {
        let (a, rest) = self.split_once(b' ')?;
        let (b, c) = rest.split_once(b' ')?;
        if c.split_once(b' ').is_some() {
            return None;
        }
        Some(Trio {
            first: a.token(),
            second: b.token(),
            third: c.token(),
        })
    }
}

impl Token<'_> {
    pub(crate) fn value(self) -> Option<u8>
        ensures { result ≡ numeral (as_word self.entry) }
    {
        match self {
            Token::Number(n, _) => Some(n),
            _ => None,
        }
    }

    // The column `start`.
    pub(crate) fn start(self) -> Option<bool>
        ensures { result ≡ flag 62 (as_word self.entry) }
    {
        match self {
            Token::Sign('>', _) => Some(true),
            Token::Sign('.', _) => Some(false),
            _ => None,
        }
    }

    // The column `mark`. Apart from `start` by a rule (docs/DECISIONS.md): a column's signs stand in its decision as cases.
    pub(crate) fn mark(self) -> Option<bool>
        ensures { result ≡ flag 42 (as_word self.entry) }
    {
        match self {
            Token::Sign('*', _) => Some(true),
            Token::Sign('.', _) => Some(false),
            _ => None,
        }
    }

    // The column `by`.
    pub(crate) fn by(self) -> Option<By>
        ensures { result ≡ by_of (as_word self.entry) }
    {
        match self {
            Token::Letter(i, _) => Some(By::Letter(i)),
            Token::Sign('#', _) => Some(By::Every),
            _ => None,
        }
    }

    pub(crate) fn is_named(self, name: &[u8]) -> bool
        ensures { result ≡ named name.now (as_word self.entry) }
    {
        matches!(self, Token::Name(span) if span.text == name)
    }
}
