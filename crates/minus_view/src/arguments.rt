//! The arguments of the pager program, as `less` has them.
//!
//! What a variable sets is read first, and then the words, up to `--` or the first that begins with neither `-` nor
//! `+`; a `-` alone is a text. A word holds one option or several, `-NS`, and the value of the last one stands in the
//! rest of the word, up to a `$`, or in the next word. A text of letters alone, `FRX`, is one of options in a
//! variable. Behind `-+` the options that have no value are set back.
ghost use Rattle.std.specs.Prelude.{◌≡◌};
ghost use Rattle.minus_view.specs.Arguments.{bare_answer, default_paging, arguments_of};
ghost use Rattle.minus_view.specs.Paging.{bare_paging, texts_of};

mod option_effects;
mod option_table;
mod reading;
mod words;

use reading::read_options;
use words::read_words;

/// Whether the capitals of a query count.
#[derive(Clone, Copy, PartialEq, Eq)]
pub enum Case {
    /// They do.
    Exact,
    /// They do in a query that has one.
    Smart,
    /// They never do.
    Ignored,
}

/// Where the first page begins.
#[derive(Clone, Copy, PartialEq, Eq)]
pub enum Opening<'a> {
    /// At the first line.
    First,
    /// At this line, counted from 1.
    Line(usize),
    /// It is the last page.
    End,
    /// It is the last page, and the end of the text is followed.
    Follows,
    /// At the first line in which this query matches.
    Finds(&'a str),
}

/// What the end of the text does.
#[derive(Clone, Copy, PartialEq, Eq)]
pub enum AtEnd {
    /// Nothing.
    Stays,
    /// It ends the pager where it is reached for a second time.
    EndsAtSecond,
    /// It ends the pager.
    EndsAtFirst,
}

/// How a text is paged.
#[derive(Clone, Copy, PartialEq, Eq)]
pub struct Paging<'a> {
    /// Whether lines have numbers.
    pub numbers: bool,
    /// Whether long lines are cut at the screen's edge, and not wrapped.
    pub chops: bool,
    /// Whether a text that fits the terminal is printed, and not paged.
    pub prints: bool,
    /// Whether the last page stays on the terminal at the pager's end.
    pub leaves: bool,
    /// Whether one empty line is shown for several.
    pub squeezes: bool,
    /// Whether the pager takes the mouse.
    pub mouse: bool,
    /// Whether the capitals of a query count.
    pub case: Case,
    /// What the end of the text does.
    pub at_end: AtEnd,
    /// How far tabs stand apart, in columns: from 1 to 65535.
    pub tabs: usize,
    /// Where the first page begins.
    pub opening: Opening<'a>,
    /// What a text is called that has no name.
    pub name: Option<&'a str>,
    /// The names of the texts; `-` is standard input, and so is no name at all.
    pub texts: &'a [&'a str],
}

/// What the words ask for.
#[derive(Clone, Copy, PartialEq, Eq)]
pub enum Arguments<'a> {
    /// To page texts.
    Page(Paging<'a>),
    /// To say how the program is called.
    Help,
    /// To say the program's version.
    Version,
}

/// Why the words ask for nothing, with the word at fault.
#[derive(Clone, Copy, PartialEq, Eq)]
pub enum ArgumentFault<'a> {
    /// An option that there is not.
    UnknownOption(&'a str),
    /// A number that is none, or out of its range; or a command behind `+` that there is not.
    BadNumber(&'a str),
    /// The value of an option is missing.
    NoValue(&'a str),
}

// How a text is paged that nothing was said of.
fn default_paging<'a>() -> Paging<'a>
    ensures { bare_paging result ≡ default_paging }
{
    Paging {
        numbers: false,
        chops: false,
        prints: false,
        leaves: false,
        squeezes: false,
        mouse: false,
        case: Case::Exact,
        at_end: AtEnd::Stays,
        tabs: 8,
        opening: Opening::First,
        name: None,
        texts: &[],
    }
}

/// What the words behind the program's name ask for, where a variable sets options, as `-R -S` or `RS`. What there is
/// not in `set` is skipped there, and so is what asks for help or the version, or lacks its value.
///
/// # Errors
///
/// [`ArgumentFault`] of the first word that is at fault.
pub fn parse_arguments<'a>(
    set: &'a str,
    words: &'a [&'a str],
) -> Result<Arguments<'a>, ArgumentFault<'a>>
    ensures { bare_answer result ≡ arguments_of set.now (texts_of words.now) }
{
    let reading = read_options(default_paging(), set);
    read_words(reading.paging, words)
}
