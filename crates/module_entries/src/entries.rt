//! What a module imports and exports, as it stands in its tree.
ghost use Rattle.std.specs.Prelude.{◌≡◌, map, IfOk};
ghost use Rattle.semantic_tree.specs.ChildIter.{shown};
ghost use Rattle.module_entries.specs.Entries.{seen, no_entries, imports_in, exports_in, stars_in};
ghost use Rattle.module_entries.specs.Views.{shown_import, shown_export};

use crate::export::ExportEntry;
use crate::import::ImportEntry;
use semantic_tree::{AstKind, Program};
use std::alloc::{AllocError, Global};

/// What a module imports and exports.
#[derive(Drop)]
pub struct ModuleEntries<'a> {
    /// The import specifiers, in preorder.
    pub imports: Vec<ImportEntry<'a>>,
    /// The nodes that export names, in preorder.
    pub exports: Vec<ExportEntry<'a>>,
    /// The star exports without a name, in preorder, also those below another statement than the program.
    pub stars: Vec<AstKind<'a>>,
}

impl<'a> ModuleEntries<'a> {
    /// Nothing.
    fn new(alloc: Global) -> ModuleEntries<'a>
        ensures { seen result ≡ no_entries }
    {
        ModuleEntries {
            imports: Vec::new(alloc),
            exports: Vec::new(alloc),
            stars: Vec::new(alloc),
        }
    }
}

/// What the program of a module imports and exports. Takes time linear in its nodes. The only error is want of memory.
pub fn entries_of<'a>(alloc: Global, program: &'a Program) -> Result<ModuleEntries<'a>, AllocError>
    ensures imports { IfOk result (λ entries. map shown_import entries.imports.items
        ≡ imports_in program.now.root) }
    ensures exports { IfOk result (λ entries. map shown_export entries.exports.items
        ≡ exports_in program.now.root) }
    ensures stars { IfOk result (λ entries. map shown entries.stars.items
        ≡ stars_in program.now.root) }
{
    let root = program.root().node();
    let mut entries = ModuleEntries::new(alloc);
    entries.gather_below(root)?;
    entries.gather_exports(root)?;
    Ok(entries)
}
