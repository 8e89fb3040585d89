//! The class around a class.
ghost use Rattle.std.specs.Prelude.{◌≡◌, ◌<◌, drop, length, slice_index_or, Some, IfSome};
ghost use Rattle.class_table.specs.Outward.{parent_class, StandBefore};
ghost use Rattle.check_model.specs.Context.{classes_from};

use crate::context::CheckContext;
use class_table::ClassTable;
use semantic_syntax::ClassId;

/// The class around a class, which stands before it.
fn class_around(classes: &ClassTable<'_>, class: ClassId) -> Option<ClassId>
    requires { class < length classes.now.nodes }
    ensures value { result ≡ parent_class classes.now.parents class }
    ensures before { StandBefore classes.now.parents }
{
    classes.parent_ids.get(&class).copied()
}

impl<'a, 'n> CheckContext<'a, 'n> {
    /// The class around a class.
    pub fn outer_class(&self, class: ClassId) -> Option<ClassId>
        requires { class < length self.now.classes.now.classes.nodes }
        ensures outward { let lists = self.now.classes.now.classes in
            classes_from lists result ≡ drop 1 (classes_from lists (Some class)) }
        ensures within { IfSome result
            (λ outer. outer < length self.now.classes.now.classes.nodes) }
    {
        class_around(&self.classes.classes, class)
    }
}
