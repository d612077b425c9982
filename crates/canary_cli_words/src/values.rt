//! What was given to the options and words of a command.
ghost use Rattle.std.specs.Prelude.{◌≡◌, ℕ, Some, map, IfOk};
ghost use Rattle.clap.specs.Words.{found_of, rows_of};
ghost use Rattle.canary_cli_words.specs.CommandLine.{number_given, text_given, texts_given, flag_given};
ghost use Rattle.canary_cli_words.specs.CommandLine.{texts_or_none};
ghost use Rattle.canary_cli_words.specs.CommandLine.{MayHaveFlag, HasMoment, HasText, MayHaveNumber};

use canary_base::lists::{Listed, Text};
use canary_base::moments::Moment;
use clap::ArgMatches;
use std::alloc::{AllocError, Global};

/// The number that was given to the option of this name, if one was.
pub(crate) fn number_given(matches: &ArgMatches<'_>, name: &str) -> Option<u64>
    requires { (most : ℕ) × MayHaveNumber name.now most (rows_of (found_of matches.now)) }
    ensures { result ≡ number_given name.now (rows_of (found_of matches.now)) }
{
    matches.get_one::<u64>(name)
}

/// Whether the flag of this name was given.
pub(crate) fn flag_given(matches: &ArgMatches<'_>, name: &str) -> bool
    requires { MayHaveFlag name.now (rows_of (found_of matches.now)) }
    ensures { result ≡ flag_given name.now (rows_of (found_of matches.now)) }
{
    matches.get_flag(name)
}

/// The text that was given under this name.
pub(crate) fn text_given(
    alloc: Global,
    matches: &ArgMatches<'_>,
    name: &str,
) -> Result<Text, AllocError>
    requires { HasText name.now (rows_of (found_of matches.now)) }
    ensures { IfOk result (λ t. text_given name.now (rows_of (found_of matches.now)) ≡ Some t) }
{
    let text = matches.get_str(name).unwrap();
    Ok(Text::of(String::from_str(alloc, text)?))
}

/// The texts that were given under these two names.
pub(crate) fn two_given(
    alloc: Global,
    matches: &ArgMatches<'_>,
    first: &str,
    second: &str,
) -> Result<(Text, Text), AllocError>
    requires { HasText first.now (rows_of (found_of matches.now))
        × HasText second.now (rows_of (found_of matches.now)) }
    ensures { IfOk result (λ t.
        (text_given first.now (rows_of (found_of matches.now)) ≡ Some t.0)
        × (text_given second.now (rows_of (found_of matches.now)) ≡ Some t.1)) }
{
    let begun = text_given(alloc, matches, first)?;
    Ok((begun, text_given(alloc, matches, second)?))
}

/// The texts that were given under this name.
pub(crate) fn texts_given(
    alloc: Global,
    matches: &ArgMatches<'_>,
    name: &str,
) -> Result<Listed<Text>, AllocError>
    requires { HasText name.now (rows_of (found_of matches.now)) }
    ensures { IfOk result (λ ts. texts_given name.now (rows_of (found_of matches.now)) ≡ Some ts) }
{
    copies(alloc, matches.get_strs(name).unwrap())
}

/// The texts that were given under this name, and none if there are none.
pub(crate) fn texts_or_none(
    alloc: Global,
    matches: &ArgMatches<'_>,
    name: &str,
) -> Result<Listed<Text>, AllocError>
    ensures { IfOk result (λ ts. ts ≡ texts_or_none name.now (rows_of (found_of matches.now))) }
{
    match matches.get_strs(name) {
        Some(given) => copies(alloc, given),
        None => Ok(Listed::of(Vec::new(alloc))),
    }
}

// Copies of texts.
fn copies(alloc: Global, given: &[&str]) -> Result<Listed<Text>, AllocError>
    ensures { IfOk result (λ ts. ts ≡ map (λ t. t.now) given.now) }
{
    let mut texts = Vec::new(alloc);
    for text in given {
        texts.push(Text::of(String::from_str(alloc, text)?))?;
    }
    Ok(Listed::of(texts))
}

/// The text that was given to the option of this name, if one was.
pub(crate) fn optional_text(
    alloc: Global,
    matches: &ArgMatches<'_>,
    name: &str,
) -> Result<Option<Text>, AllocError>
    ensures { IfOk result (λ t. t ≡ text_given name.now (rows_of (found_of matches.now))) }
{
    match matches.get_str(name) {
        Some(text) => Ok(Some(Text::of(String::from_str(alloc, text)?))),
        None => Ok(None),
    }
}

/// The texts that were given to the options of these two names, as far as they were.
pub(crate) fn two_optional(
    alloc: Global,
    matches: &ArgMatches<'_>,
    first: &str,
    second: &str,
) -> Result<(Option<Text>, Option<Text>), AllocError>
    ensures { IfOk result (λ t. (t.0 ≡ text_given first.now (rows_of (found_of matches.now)))
        × (t.1 ≡ text_given second.now (rows_of (found_of matches.now)))) }
{
    let begun = optional_text(alloc, matches, first)?;
    Ok((begun, optional_text(alloc, matches, second)?))
}

/// The moment that was given to the option of this name.
pub(crate) fn moment_given(matches: &ArgMatches<'_>, name: &str) -> Moment
    requires { HasMoment name.now (rows_of (found_of matches.now)) }
    ensures { number_given name.now (rows_of (found_of matches.now)) ≡ Some result }
{
    let seconds = matches.get_one::<u64>(name).unwrap();
    Moment::new(seconds).unwrap()
}
