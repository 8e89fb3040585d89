//! Questions about the scopes of tables. A scope that the tables don't hold has no flags.
ghost use Rattle.std.specs.Prelude.{◌≡◌, ◌<◌, length};
ghost use Rattle.semantic_syntax.specs.declared.scope_flags.TheConstants.ScopeFlags as scope_flag;
ghost use Rattle.semantic_syntax.specs.Sets.{meets};
ghost use Rattle.semantic_syntax.specs.Reading.{scope_flags};
ghost use Rattle.name_lint.specs.Undeclared.{has_arguments, is_in_function};

use scoping::Scoping;
use semantic_syntax::{ScopeFlags, ScopeId};

/// The flags of the scope, in the types of its tables.
#[tactic(auto, using(crate::proofs::ScopesTold::scopes))]
fn flags_of(scoping: &Scoping, scope: ScopeId) -> ScopeFlags
    ensures { result.bits ≡ scope_flags scoping.now scope }
{
    if scope.index() < scoping.scopes_len() {
        scoping.scope_flags(scope)
    } else {
        ScopeFlags::empty()
    }
}

/// Whether `eval` is called directly in the scope or below.
pub fn has_direct_eval(scoping: &Scoping, scope: ScopeId) -> bool
    ensures { result ≡ meets (scope_flags scoping.now scope) scope_flag.DirectEval.bits }
{
    flags_of(scoping, scope).contains_direct_eval()
}

/// Whether the scope is a function's that has arguments of its own.
fn has_arguments(scoping: &Scoping, scope: ScopeId) -> bool
    ensures { result ≡ has_arguments scoping.now scope }
{
    let flags = flags_of(scoping, scope);
    flags.is_function() && !flags.is_arrow()
}

/// Whether the scope or one around it is a function's that has arguments of its own.
fn is_within_function(scoping: &Scoping, scope: ScopeId) -> bool
    requires { scope < length scoping.now.scopes }
    ensures { result ≡ is_in_function scoping.now scope }
{
    for around in scoping.scope_ancestors(scope) {
        if has_arguments(scoping, around) {
            return true;
        }
    }
    false
}

/// Whether the scope or one around it is a function's that has arguments of its own. It goes out as far as the look-up
/// of the name did.
#[tactic(auto, using(crate::proofs::ScopesTold::scopes))]
pub fn is_in_function(scoping: &Scoping, scope: ScopeId) -> bool
    ensures { result ≡ is_in_function scoping.now scope }
{
    scope.index() < scoping.scopes_len() && is_within_function(scoping, scope)
}
