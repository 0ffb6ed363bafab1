// What is asked of a token that was found.
ghost use Rattle.std.specs.Prelude.{◌≡◌};
ghost use Rattle.format.specs.Objects.{is_word};
ghost use Rattle.lexer.specs.Views.{kind_of};
ghost use Rattle.objects.specs.Steps.{misplaced};

use faults::fault::Fault;
use faults::layer::Layer;
use faults::reason::Reason;
use lexer::name::same_bytes;
use lexer::token::{Found, Token};

// Whether a token is this word.
pub fn is_word(token: Token<'_>, word: &[u8]) -> bool
    ensures { result ≡ is_word word.now (kind_of token.entry) }
{
    matches!(token, Token::Word(run) if same_bytes(word, run))
}

// The refusal of a token that does not fit where it stands: the bytes end there, or the reason.
pub fn misplaced(found: Found<'_>, reason: Reason) -> Fault
    ensures { result ≡ misplaced reason found.entry.from found.entry.token }
{
    let reason = match found.token {
        Token::End => Reason::BytesEnd,
        _ => reason,
    };
    Fault::met(reason, Layer::Object, found.from)
}
