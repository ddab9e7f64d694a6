// Tokens as the grammar of lines sees them.
ghost use Rattle.std.specs.Prelude.{◌≡◌, ◌≤◌, ◌-◌, length, slice_range, IsTrue};
ghost use Rattle.tdl_lexer.specs.declared.signs.Sign.TheVariants.{Number as NumberSign, Quoted as QuotedSign};
ghost use Rattle.tdl_mini_grammar.specs.NumberTexts.{fits_number};
ghost use Rattle.tdl_line_machine.specs.Tokens.{Tok as TokValue};
ghost use Rattle.tdl_line_texts.specs.Limits.{max_line};
ghost use Rattle.tdl_line_texts.specs.Texts.{IsTok};
ghost use Rattle.tdl_line_reader.specs.ReaderView.{IsTokOf};
ghost use Rattle.tdl_script.specs.inside.QuotedView.{text_reads};

use crate::quoted::QuotedText;
use tdl_lexer::{Sign, Token};
use tdl_line_reader::Tok;
use tdl_line_texts::{mark_of, name_of};
use tdl_mini::number_of;

/// The token of the line that is cut there.
pub(crate) fn tok_at(text: &[u8], token: Token) -> Tok<QuotedText<'_>>
    requires short { length text.now ≤ max_line }
    requires ordered { token.at ≤ token.end }
    requires within { token.end ≤ length text.now }
    requires number { token.sign ≡ NumberSign → IsTrue (fits_number (slice_range text.now token.at token.end)) }
    requires quoted { token.sign ≡ QuotedSign → 2 ≤ token.end - token.at }
    ensures { (t : TokValue) → IsTok text.now token t → IsTokOf text_reads t result }
{
    let bytes = &text[token.at as usize..token.end as usize];
    match token.sign {
        Sign::Number => Tok::Number(number_of(bytes)),
        Sign::Word => Tok::Name(name_of(bytes)),
        Sign::Quoted => Tok::Quoted(QuotedText {
            bytes: &bytes[1..bytes.len() - 1],
        }),
        Sign::Mark => Tok::Mark(mark_of(bytes)),
        Sign::End => Tok::End,
    }
}
