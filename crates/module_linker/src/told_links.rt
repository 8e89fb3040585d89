//! Links, by what was found.
ghost use Rattle.std.specs.Prelude.{◌≡◌, IfOk};
ghost use Rattle.link_targets.specs.Followed.{outcome_of, terminal_outcome};
ghost use Rattle.module_linker.specs.LinksBy.{links_by};

use crate::set_targets::ImportPlace;
use link_model::{Link, LinkOutcome};
use link_search::{Found, Terminal};
use std::alloc::{AllocError, Global};

/// The outcome of a terminal that alone is reached.
fn terminal_outcome(terminal: &Terminal) -> LinkOutcome
    ensures { result ≡ terminal_outcome terminal.now }
{
    match terminal {
        Terminal::Symbol(module, symbol) => LinkOutcome::Symbol(*module, *symbol),
        Terminal::Default(module) => LinkOutcome::Default(*module),
        Terminal::Namespace(module) => LinkOutcome::Namespace(*module),
        Terminal::Outside(_, _) => LinkOutcome::External,
    }
}

/// The outcome of what was found.
fn outcome_of(found: &Found) -> LinkOutcome
    ensures { result ≡ outcome_of found.now }
{
    match found {
        Found::Missing => LinkOutcome::Missing,
        Found::Ring => LinkOutcome::Ring,
        Found::One(terminal) => terminal_outcome(terminal),
        Found::Ambiguous => LinkOutcome::Ambiguous,
    }
}

/// The links of these imports, for each of which this was found.
pub(crate) fn told_links(
    alloc: Global,
    places: &[ImportPlace],
    found: &[Found],
) -> Result<Vec<Link>, AllocError>
    ensures { IfOk result (λ links. links.items ≡ links_by places.now found.now) }
{
    let mut links = Vec::new(alloc);
    for (place, found) in places.iter().zip(found) {
        links.push(Link {
            module: place.number,
            node: place.node,
            outcome: outcome_of(found),
        })?;
    }
    Ok(links)
}
