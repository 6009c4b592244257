//! The options in words, read by `clap`. Each one has a name and a value.
ghost use Rattle.std.specs.Prelude.{◌≡◌, [], false, map, string_bytes, IfOk, IsErrOf};
ghost use Rattle.std.specs.List.{list_any};
ghost use Rattle.clap.specs.Words.{app_of};
ghost use Rattle.portal_words.specs.Commands.{is_among};
ghost use Rattle.portal_words.specs.Options.{HaveOtherOptions, MatchesOptions, app_with, is_dashes};

use crate::command::WordsFault;
use clap::{Arg, ArgAction, ArgMatches, Command};
use std::alloc::{AllocError, Global};

/// Whether the word is one or two dashes and nothing else.
fn is_dashes(word: &str) -> bool
    ensures { result ≡ is_dashes word.now }
{
    word == "-" || word == "--"
}

/// Whether one of the words is one or two dashes and nothing else.
fn has_dashes(words: &[String]) -> bool
    ensures { result ≡ list_any is_dashes (map string_bytes words.now) }
{
    words.iter().any(|word| is_dashes(word.as_str()))
}

/// The parser of a command with these options.
fn parser_with<'a>(alloc: Global, names: &[&'static str]) -> Result<Command<'a>, AllocError>
    ensures { IfOk result (λ parser. app_of parser ≡ app_with (map (λ n. n.now) names.now)) }
{
    let mut parser = Command::new(alloc, "portal")
        .no_binary_name(true)
        .disable_help_flag(true);
    for name in names {
        let option = Arg::new(alloc, name).long(name).action(ArgAction::Set);
        parser = parser.arg(option)?;
    }
    Ok(parser)
}

/// The values of these options in the words. A word of dashes alone is refused first, since `clap` would take one dash
/// as an option's value, and two dashes at the end.
pub fn options_in<'a>(
    alloc: Global,
    names: &[&'static str],
    words: &'a [String],
) -> Result<ArgMatches<'a>, WordsFault>
    requires { is_among (map (λ n. n.now) names.now) [] ≡ false }
    ensures ok { IfOk result (λ matches. MatchesOptions (map (λ n. n.now) names.now)
        (map string_bytes words.now) matches) }
    ensures bad { IsErrOf result WordsFault.BadWords → HaveOtherOptions (map (λ n. n.now) names.now)
        (map string_bytes words.now) }
{
    if has_dashes(words) {
        return Err(WordsFault::BadWords);
    }
    let parser = parser_with(alloc, names)?;
    Ok(parser.try_get_matches_from(words)?)
}
