//! How a view is started: with the beginning of a text, which is printed where it is all of it and fits the terminal.

use crate::fault::Fault;
use crate::keys::Table;
use crate::options::Options;
use crate::preview::ShowsWithin;
use crate::size::Size;
use crate::view::copying::Mouse;
use crate::view::kept_place::Places;
use crate::view::printing::print_if_fits;
use crate::view::prompt_row::Notices;
use crate::view::queries::Queries;
use crate::view::reading::Reading;
use crate::view::tabs::Tabs;
use crate::view::typed::Typed;
use crate::view::{AppKinds, View};
use minus::{CommandOf, Core, Layout, MinusError, OutputSink, PagerOf, RunMode, init_core_with};
use minus_view::Opening;
use std::alloc::Global;

/// What a view is started with.
#[derive(Drop)]
pub struct Start<S> {
    /// The terminal, for the pages.
    pub pages: S,
    /// The terminal once more, for what is no part of a page.
    pub beside: S,
    /// The terminal's size.
    pub size: Size,
    /// Whether the terminal takes a copied text.
    pub copies: bool,
    /// What decides about events.
    pub keys: Table,
    /// Whether the text is all there, and is to be printed where it fits the terminal.
    pub prints: bool,
    /// Whether the text comes with marks of its tabs.
    pub marks_tabs: bool,
}

// Sets what a text is shown by, before it is there.
fn set_up(pager: &mut PagerOf<AppKinds>, layout: Layout) -> Result<(), MinusError> {
    pager.set_line_numbers(layout.numbers)?;
    pager.horizontal_scroll(!layout.wrapping)?;
    pager.set_match_lines(layout.match_lines)?;
    pager.set_carry_style(layout.carry_style)?;
    pager.set_incremental_search_condition(ShowsWithin)
}

// A pager with the beginning of a text.
fn pager_of(
    alloc: Global,
    layout: Layout,
    beginning: &str,
) -> Result<PagerOf<AppKinds>, MinusError> {
    let mut pager = PagerOf::new(alloc);
    set_up(&mut pager, layout)?;
    pager.push_str(beginning)?;
    Ok(pager)
}

// The session of a pager on the terminal, of this many columns and rows.
fn session_of<S: OutputSink + Drop>(
    pager: PagerOf<AppKinds>,
    terminal: S,
    size: (usize, usize),
    keys: Table,
) -> Result<Core<S, AppKinds>, MinusError> {
    let (cols, rows) = size;
    Ok(init_core_with(pager, RunMode::Dynamic, terminal, cols, rows, keys)?)
}

impl<S: OutputSink + Drop> View<S> {
    // A view of a session, as it begins.
    fn of_session(
        alloc: Global,
        session: Core<S, AppKinds>,
        terminal: S,
        copies: bool,
        tabs: Tabs,
        options: &Options<'_>,
    ) -> View<S> {
        View {
            alloc,
            session,
            terminal,
            typed: Typed::default(),
            notices: Notices::new(),
            queries: Queries::new(alloc, options.case),
            reading: Reading::new(options.first_goal()),
            places: Places::new(alloc),
            mouse: Mouse::new(options.mouse, copies),
            tabs,
            at_end: options.at_end,
            leaves: options.leaves,
        }
    }

    /// Starts a session with the beginning of a text. Where that is all of it, and is to be printed where it fits the
    /// terminal, it is printed there, and there is no session.
    ///
    /// # Errors
    ///
    /// [`Fault::Pager`] where the session does not start, or the terminal refuses the text.
    pub(crate) fn start(
        alloc: Global,
        start: Start<S>,
        options: &Options<'_>,
        beginning: &str,
    ) -> Result<Option<View<S>>, Fault> {
        let Start {
            pages,
            beside,
            size,
            copies,
            keys,
            prints,
            marks_tabs,
        } = start;
        let mut tabs = Tabs::new(alloc, marks_tabs);
        let text = tabs.take(alloc, String::from_str(alloc, beginning)?)?;
        let beginning = text.as_str();
        let (cols, rows) = (usize::from(size.cols), usize::from(size.rows));
        let (mut pages, layout) = (pages, options.layout(cols));
        if prints && print_if_fits(alloc, &mut pages, beginning, layout, rows)? {
            return Ok(None);
        }
        let pager = pager_of(alloc, layout, beginning)?;
        let session = session_of(pager, pages, (cols, rows), keys)?;
        let view = View::of_session(alloc, session, beside, copies, tabs, options);
        Ok(Some(view))
    }

    /// Sets what the options ask for beside the text.
    ///
    /// # Errors
    ///
    /// [`Fault::Pager`] where the session refuses.
    pub(crate) fn set_options(&mut self, options: &Options<'_>) -> Result<(), Fault> {
        self.release_mouse()?;
        if options.opening == Opening::Follows {
            self.command(CommandOf::FollowOutput(true))?;
        }
        Ok(())
    }
}
