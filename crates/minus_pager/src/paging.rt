//! How the texts that the words name are paged.
ghost use Rattle.std.specs.Prelude.{◌≡◌};
ghost use Rattle.minus_pager.specs.Pagings.{bare_options, options_of};

use crate::exit_status::Refusal;
use crate::files::Files;
use minus_app::{AppKeys, Options, run};
use minus_view::{Paging, Shape};

// How a text is paged; one of several is not printed.
fn options_of<'a>(paging: &Paging<'a>) -> Options<'a>
    ensures { bare_options result ≡ options_of paging.now }
{
    Options {
        numbers: paging.numbers,
        chops: paging.chops,
        prints: paging.prints && paging.texts.len() < 2,
        mouse: paging.mouse,
        leaves: paging.leaves,
        case: paging.case,
        at_end: paging.at_end,
        opening: paging.opening,
    }
}

/// Pages the texts that the words name, with the keys of `less`.
///
/// # Errors
///
/// [`Refusal::Words`] where no file is named and standard input is the terminal, and [`Refusal::Failed`] where the text
/// is not read, or what [`run`] refuses.
pub fn page(rt: &HostRuntime, paging: &Paging<'_>) -> Result<(), Refusal> {
    let shape = Shape {
        tabs: paging.tabs,
        squeezes: paging.squeezes,
        marks_tabs: paging.mouse,
        links: true,
    };
    let files = Files::open(rt, paging.texts, paging.name, shape)?;
    let keys = AppKeys::all_of_less(rt.alloc())?;
    Ok(run(rt, files, keys, options_of(paging))?)
}
