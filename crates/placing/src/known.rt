// The word that a line begins with, where it is known (rule 8).
ghost use Rattle.std.specs.Prelude.{◌≡◌, Some, IfSome};
ghost use Rattle.meaning.specs.declared.tokens.TokenKind.TheVariants.{Word};

use meaning::tokens::TokenKind;
use parser::lexeme::Lexeme;
use steps::first::Known;

// The word that is known at a position, if one is.
pub fn known_word(known: Known, at: usize) -> Option<Lexeme>
    ensures { IfSome result (λ x. (known.at.0 ≡ at) × (known.first ≡ Some x) × (x.kind ≡ Word)) }
{
    if known.at.0 as usize != at {
        return None;
    }
    let x = known.first?;
    match x.kind {
        TokenKind::Word => Some(x),
        _ => None,
    }
}
