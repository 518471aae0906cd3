// What the reading of a slot line goes over.
ghost use Rattle.lines.specs.inner.Remainder.{Remainder};

use steps::step::Tokens;

// The whole text, the tokens of the remainder that is read, and the place where that begins.
#[derive(Clone, Copy)]
pub struct Front<'a> {
    pub text: &'a [u8],
    pub tokens: Tokens<'a>,
    pub base: usize,
    pub ghost remains: { Remainder text.now tokens.rest.now base },
}
