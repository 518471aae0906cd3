// A reader that borrows the rule text while it walks: thin functions over one token at a position.
#![tactic(auto)]

ghost use Rattle.std.specs.Prelude.{◌≡◌};
ghost use Rattle.text.specs.Next.{next_at};
ghost use Rattle.cursor.specs.Readers.{at_start, peeked, advanced};

use text::Next;

// A text and a position in it.
#[derive(Clone, Copy)]
pub struct Reader<'a> {
    pub text: &'a [u8],
    pub at: usize,
}

impl<'a> Reader<'a> {
    // The reader at the start of a text.
    pub fn new(text: &'a [u8]) -> Reader<'a>
        ensures { result ≡ at_start text.entry }
    {
        Reader { text, at: 0 }
    }

    // The token at the reader's position, and the position after it.
    pub fn peek(self) -> Next
        ensures { result ≡ peeked self.entry }
    {
        text::token_at(self.text, self.at)
    }

    // The reader past that token.
    pub fn advance(self) -> Reader<'a>
        ensures { result ≡ advanced self.entry }
    {
        let next = self.peek();
        let at = next.at;
        Reader {
            text: self.text,
            at,
        }
    }
}

// The first token of a text.
pub fn first(text: &[u8]) -> Next
    ensures { result ≡ next_at text.now 0 }
{
    Reader::new(text).peek()
}

// The token after the one at a position.
pub fn after(text: &[u8], at: usize) -> Next
    ensures { result ≡ next_at text.now (next_at text.now at).at }
{
    Reader { text, at }.advance().peek()
}
