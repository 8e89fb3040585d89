//! Whether a namesake stands between a block function and where it would move (ECMAScript, Annex B.3.2).

ghost use Rattle.std.specs.Prelude.{◌≡◌, ◌<◌, length, drop, IfOk, IfSome};
ghost use Rattle.std.specs.Str.{chars};
ghost use Rattle.table_building.specs.Routes.{IsRoute};
ghost use Rattle.semantic_walk.specs.Binds.{block_target, stands_on};

use scoping::Scoping;
use semantic_syntax::{Ident, ScopeFlags, ScopeId};
use std::alloc::{AllocError, Global};
use table_building::route::{PassedScope, Route};
use walk_notes::LazyNamesakes;

/// The scopes that the route passes, but for the one where it begins.
fn between(route: &Route) -> &[PassedScope]
    ensures { result.now ≡ drop 1 route.now.passed.items }
{
    match route.passed.as_slice().split_first() {
        Some((_, passed)) => passed,
        None => &[],
    }
}

/// Whether a declaration past which a block function doesn't move stands, under the name, in a scope strictly between
/// the one where the route begins and its target: a `var` in the function's place would conflict with it (ECMAScript,
/// Annex B.3.2). A route without such a scope asks for no declaration, so that none is collected for it.
fn stand_on(
    namesakes: &mut LazyNamesakes<'_>,
    route: &Route,
    scoping: &Scoping,
    name: Ident<'_>,
) -> Result<bool, AllocError>
    requires { IsRoute (length scoping.now.scopes) route.now }
    ensures stays { namesakes.new ≡ namesakes.old }
    ensures stands { IfOk result (λ stands. stands
        ≡ stands_on scoping.now namesakes.old (chars name.entry.text.now)
        (drop 1 route.now.passed.items)) }
{
    for scope in between(route) {
        if namesakes.has(scoping.get_node_id(scope.id()), name)? {
            return Ok(true);
        }
    }
    Ok(false)
}

/// Where a function in a block of sloppy code moves (ECMAScript, Annex B.3.2): to the nearest function, unless a namesake
/// stands between, wherever that is written.
pub(crate) fn target_of_function(
    alloc: Global,
    namesakes: &mut LazyNamesakes<'_>,
    scoping: &Scoping,
    block: ScopeId,
    name: Ident<'_>,
) -> Result<Option<ScopeId>, AllocError>
    requires { block < length scoping.now.scopes }
    ensures stays { namesakes.new ≡ namesakes.old }
    ensures target { IfOk result (λ o. o
        ≡ block_target scoping.now namesakes.old block (chars name.entry.text.now)) }
    ensures within { IfOk result (λ o. IfSome o (λ s. s < length scoping.now.scopes)) }
{
    let route = Route::outward(alloc, scoping, block, ScopeFlags::Var)?;
    let target = route.target;
    let stands = stand_on(namesakes, &route, scoping, name)?;
    Ok(if stands { None } else { Some(target) })
}
