//! The words behind the program's name, from the left.
ghost use Rattle.std.specs.Prelude.{◌≡◌};
ghost use Rattle.minus_view.specs.Arguments.{bare_answer, bare_words, bare_step, is_option, read_word};
ghost use Rattle.minus_view.specs.Arguments.{read_value, next_word, paged, new_words, read_words};
ghost use Rattle.minus_view.specs.Paging.{bare_paging, texts_of};

use super::option_effects::with_value;
use super::option_table::Valued;
use super::reading::{Ending, read_options};
use super::{ArgumentFault, Arguments, Paging};

/// What the words so far ask for.
#[derive(Clone, Copy)]
struct Words<'a> {
    paging: Paging<'a>,
    /// The option of a word whose value is the next word.
    waiting: Option<(Valued, &'a str)>,
}

/// What a word is.
#[derive(Clone, Copy)]
enum Step<'a> {
    /// Options, or the value of one.
    Options(Words<'a>),
    /// The end of the options: the texts follow.
    End,
    /// The first text.
    Text,
    /// Help or the version is asked for.
    Says(Arguments<'a>),
}

// Whether a word is one of options.
fn is_option(word: &str) -> bool
    ensures { result ≡ is_option word.now }
{
    matches!(word.as_bytes(), [b'-' | b'+', _, ..])
}

// A word of options.
fn read_word<'a>(so_far: Paging<'a>, word: &'a str) -> Result<Step<'a>, ArgumentFault<'a>>
    ensures { bare_step result ≡ read_word (bare_paging so_far.entry) word.now }
{
    if word == "-h" {
        return Ok(Step::Says(Arguments::Help));
    }
    let reading = read_options(so_far, word);
    let waiting = match reading.ending {
        Ending::Nothing => None,
        Ending::Waits(valued) => Some((valued, word)),
        Ending::Help => return Ok(Step::Says(Arguments::Help)),
        Ending::Version => return Ok(Step::Says(Arguments::Version)),
        Ending::Unknown => return Err(ArgumentFault::UnknownOption(word)),
        Ending::BadNumber => return Err(ArgumentFault::BadNumber(word)),
    };
    Ok(Step::Options(Words {
        paging: reading.paging,
        waiting,
    }))
}

// A word that is the value of an option.
fn read_value<'a>(
    so_far: Paging<'a>,
    valued: Valued,
    value: &'a str,
) -> Result<Step<'a>, ArgumentFault<'a>>
    ensures { bare_step result ≡ read_value (bare_paging so_far.entry) valued value.now }
{
    match with_value(so_far, valued, value) {
        Some(paging) => Ok(Step::Options(Words {
            paging,
            waiting: None,
        })),
        None => Err(ArgumentFault::BadNumber(value)),
    }
}

// One word.
fn next_word<'a>(so_far: Words<'a>, word: &'a str) -> Result<Step<'a>, ArgumentFault<'a>>
    ensures { bare_step result ≡ next_word (bare_words so_far.entry) word.now }
{
    if word == "--" {
        return Ok(Step::End);
    }
    match so_far.waiting {
        Some((valued, _)) => read_value(so_far.paging, valued, word),
        None if is_option(word) => read_word(so_far.paging, word),
        None => Ok(Step::Text),
    }
}

// The texts that are paged.
fn paged<'a>(so_far: Words<'a>, texts: &'a [&'a str]) -> Result<Arguments<'a>, ArgumentFault<'a>>
    ensures { bare_answer result ≡ paged (bare_words so_far.entry) (texts_of texts.now) }
{
    match so_far.waiting {
        Some((_, word)) => Err(ArgumentFault::NoValue(word)),
        None => Ok(Arguments::Page(Paging {
            texts,
            ..so_far.paging
        })),
    }
}

/// What the words ask for behind what was set before.
pub(super) fn read_words<'a>(
    paging: Paging<'a>,
    words: &'a [&'a str],
) -> Result<Arguments<'a>, ArgumentFault<'a>>
    ensures { bare_answer result ≡ read_words (new_words (bare_paging paging.entry)) (texts_of words.now) }
{
    let mut so_far = Words {
        paging,
        waiting: None,
    };
    for (at, word) in words.iter().enumerate() {
        match next_word(so_far, *word)? {
            Step::Options(next) => so_far = next,
            Step::End => return paged(so_far, &words[at + 1..]),
            Step::Text => return paged(so_far, &words[at..]),
            Step::Says(arguments) => return Ok(arguments),
        }
    }
    paged(so_far, &[])
}
