//! The tokens of a text.
ghost use Rattle.std.specs.Prelude.{◌≡◌, ◌++◌, [], IfOk, OnOk, string_bytes};
ghost use Rattle.std.specs.Str.{chars};
ghost use Rattle.portal_base.specs.Tokens.{tokens, token_of_word};

use crate::characters::is_word_character;
use crate::seq::Seq;
use crate::text::Text;
use caseless::default_case_fold_str;
use std::alloc::{AllocError, Global};

/// The tokens of a text, in order: the longest runs of letters, marks and numbers (Unicode, section 4.5), each in full
/// default case folding (section 3.13). Nothing is normalized.
pub fn tokens(alloc: Global, text: &str) -> Result<Seq<Text>, AllocError>
    ensures { IfOk result (λ found. found ≡ tokens text.now) }
{
    let mut found = Vec::new(alloc);
    let mut word = String::new(alloc);
    for character in text.chars() {
        if is_word_character(character) {
            word.push(character)?;
        } else {
            end_word(alloc, &mut found, &mut word)?;
        }
    }
    end_word(alloc, &mut found, &mut word)?;
    Ok(Seq::from(found))
}

/// Adds the token of a finished word, unless the word is empty, and clears the word.
#[tactic(auto, using(crate::proofs::Words::a_word_has_a_token, crate::proofs::Words::no_word_adds_none))]
fn end_word(alloc: Global, found: &mut Vec<Text>, word: &mut String) -> Result<(), AllocError>
    ensures found { OnOk result (found.new.items ≡ found.old.items ++ token_of_word (chars (string_bytes word.old))) }
    ensures word { OnOk result (string_bytes word.new ≡ []) }
{
    if !word.as_str().is_empty() {
        let token = default_case_fold_str(alloc, word.as_str())?;
        found.push(Text::from(token))?;
        word.clear();
    }
    Ok(())
}
