//! The declarations of a symbol that is declared more than once.
ghost use Rattle.std.specs.Prelude.{◌≡◌};
ghost use Rattle.check_model.specs.Entries.{one_before_last};

use scoping::Redeclaration;

/// The last declaration but one, if there are two.
pub fn one_before_last(entries: &[Redeclaration]) -> Option<Redeclaration>
    ensures { result ≡ one_before_last entries.now }
{
    if entries.len() > 1 {
        Some(entries[entries.len() - 2])
    } else {
        None
    }
}
