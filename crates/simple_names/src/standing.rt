//! The names at nodes that bear no symbol which may change.
ghost use Rattle.std.specs.Prelude.{◌≡◌, ◌&&◌, ◌||◌, [], ◌∷◌, cond, not, IfOk, OnOk};
ghost use Rattle.semantic_syntax.specs.Tables.{Name};
ghost use Rattle.semantic_tree.specs.declared.swap.Setting.TheVariants.{Elsewhere};
ghost use Rattle.semantic_tree.specs.Renamed.{is_program_name};
ghost use Rattle.mangle_model.specs.OneNameEach.{bears_such, fixed_below};
ghost use Rattle.simple_names.specs.Telling.{is_name_among, may_by, told_by};

use crate::known::{Known, bears_such};
use crate::settings::{is_named, setting_below};
use name_sets::NameSet;
use semantic_tree::swap::Setting;
use semantic_tree::{Node, Program, Role};
use std::alloc::{AllocError, Global};

/// Adds the name of a node in a setting, if it bears no symbol that may change.
fn add_name(
    alloc: Global,
    names: &mut NameSet,
    known: &Known<'_>,
    setting: Setting,
    role: Role,
    node: &Node,
) -> Result<(), AllocError>
    ensures { OnOk result ((q : Name) → is_name_among names.new q ≡ (is_name_among names.old q
        || is_name_among (cond (is_program_name setting role node.now.kind
        && not (bears_such (may_by known.now) (told_by known.now) node.now.node_id))
        (node.now.text ∷ []) []) q)) }
{
    if is_named(setting, role, node.kind) && !bears_such(known, node.node_id) {
        names.add(alloc, node.text.as_str())?;
    }
    Ok(())
}

/// Adds those of the nodes below one, of which the children stand in a setting. For want of memory some may be added.
#[tactic(auto, using(semantic_tree::specs::Falls::below))]
fn add_names(
    alloc: Global,
    names: &mut NameSet,
    known: &Known<'_>,
    setting: Setting,
    node: &Node,
) -> Result<(), AllocError>
    ensures { OnOk result ((q : Name)
        → is_name_among names.new q ≡ (is_name_among names.old q
        || is_name_among (fixed_below (bears_such (may_by known.now) (told_by known.now)) setting
        node.now.children) q)) }
{
    for (role, child) in node.children.as_slice() {
        add_name(alloc, names, known, setting, *role, child)?;
        let below = setting_below(setting, *role, child.kind);
        add_names(alloc, names, known, below, child)?;
    }
    Ok(())
}

/// The names at all such nodes of a program.
pub fn standing_names(
    alloc: Global,
    program: &Program,
    known: &Known<'_>,
) -> Result<NameSet, AllocError>
    ensures { IfOk result (λ names. (q : Name)
        → is_name_among names q ≡ is_name_among (fixed_below
        (bears_such (may_by known.now) (told_by known.now)) Elsewhere
        program.now.root.children) q) }
{
    let mut names = NameSet::new(alloc);
    let root = program.root().node();
    add_names(alloc, &mut names, known, Setting::Elsewhere, root)?;
    Ok(names)
}
