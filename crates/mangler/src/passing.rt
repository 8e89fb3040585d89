//! Whether proposed names may be given: the symbols may change, and the names are good ones.
ghost use Rattle.std.specs.Prelude.{◌≡◌, option_map};
ghost use Rattle.std.specs.Str.{chars};
ghost use Rattle.mangle_model.specs.Mangling.{all_pass};
ghost use Rattle.mangle_names.specs.Marks.{is_number_marked};
ghost use Rattle.mangler.specs.Passing.{good_by, passes_by, passes_option};

use mangle_names::{NewNames, is_ascii_identifier, is_marked, is_reserved};
use name_sets::NameSet;

/// Whether the name is a good one, where those of the set are barred.
fn is_good_name(barred: &NameSet, name: &str) -> bool
    ensures { result ≡ good_by barred.now (chars name.now) }
{
    is_ascii_identifier(name) && !is_reserved(name) && !barred.has(name)
}

/// Whether the symbol of the number may have the new name, if there is one.
fn passes(may: &[bool], barred: &NameSet, number: usize, name: Option<&str>) -> bool
    ensures { result ≡ passes_option (passes_by (is_number_marked may.now) barred.now) number
        (option_map (λ text. chars text.now) name.entry) }
{
    match name {
        Some(name) => is_marked(may, number) && is_good_name(barred, name),
        None => true,
    }
}

/// Whether each new name may be given.
pub fn all_pass(may: &[bool], barred: &NameSet, names: &NewNames) -> bool
    ensures { result ≡ all_pass (passes_by (is_number_marked may.now) barred.now) 0 names.now }
{
    for number in 0..names.len() {
        if !passes(may, barred, number, names.name_at(number)) {
            return false;
        }
    }
    true
}
