//! The grammar that every prepared text meets, read from the left.
ghost use Rattle.std.specs.Prelude.{◌≡◌, chars};
ghost use Rattle.minus_view.specs.Shown.{step, read, is_control, ShownTextsJoin, ShownTextsAreClean};

/// Where a shown text stands, behind some of its characters.
#[derive(Clone, Copy)]
pub(crate) enum Spot {
    /// In a line, and whether a style is open there.
    Line(bool),
    /// Behind the `ESC` of a sequence.
    Escape,
    /// In the numbers of a sequence, and whether they reset all styles so far.
    Numbers(bool),
}

/// Whether a character is a control character.
pub(crate) fn is_control(c: char) -> bool
    ensures { result ≡ is_control c }
{
    c < ' ' || ('\u{7F}'..='\u{9F}').contains(&c)
}

// Behind one character more; nothing where it may not stand there.
fn step(spot: Spot, c: char) -> Option<Spot>
    ensures { result ≡ step spot c }
{
    match spot {
        Spot::Line(styled) => {
            if c == '\u{1B}' {
                Some(Spot::Escape)
            } else if c == '\n' {
                if styled {
                    None
                } else {
                    Some(Spot::Line(false))
                }
            } else if is_control(c) {
                None
            } else {
                Some(Spot::Line(styled))
            }
        }
        Spot::Escape => {
            if c == '[' {
                Some(Spot::Numbers(true))
            } else {
                None
            }
        }
        Spot::Numbers(resets) => {
            if c == 'm' {
                Some(Spot::Line(!resets))
            } else if ('0'..=';').contains(&c) {
                Some(Spot::Numbers(resets && c == '0'))
            } else {
                None
            }
        }
    }
}

/// Behind a text; nothing where it is no shown text from there.
pub(crate) fn read(spot: Spot, text: &str) -> Option<Spot>
    ensures { result ≡ read (chars text.now) (Some spot) }
{
    let mut at = Some(spot);
    for c in text.chars() {
        at = match at {
            Some(spot) => step(spot, c),
            None => None,
        };
    }
    at
}

/// A law: no text is a shown text, and one behind another is one.
pub fn shown_texts_join()
    ensures { ShownTextsJoin }
{}

/// A law: a shown text has no control character but newlines and `ESC`, and behind each `ESC` stands `[`.
pub fn shown_texts_are_clean()
    ensures { ShownTextsAreClean }
{}
