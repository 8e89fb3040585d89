//! Writes the lines on classes, their elements, and the uses of private names.
ghost use Rattle.std.specs.Prelude.{◌≡◌, ◌<◌, ◌≤◌, length};
ghost use Rattle.std.specs.List.{flat_map};
ghost use Rattle.class_table.specs.Lists.{uses_in};
ghost use Rattle.class_table.specs.Outward.{parent_class};
ghost use Rattle.class_table.specs.Seen.{element_seen};
ghost use Rattle.report_ends.specs.Streams.{WritesLines, numbered_text};
ghost use Rattle.report_lines.specs.ClassLines.{element_line, private_use_line, class_lines, all_class_lines};
ghost use Rattle.report_lines.specs.Rows.{IsRow};

use crate::class_lines::{make_class_line, make_element_line, make_private_use_line};
use crate::line::Line;
use class_table::{ClassTable, Element};
use report_ends::{ReportError, Sink};
use semantic_syntax::{ClassId, ElementId, NodeId};
use std::collections::BTreeMap;

/// The class around a class, if it stands inside one.
fn parent_in(parents: &BTreeMap<ClassId, ClassId>, class: ClassId) -> Option<ClassId>
    ensures { result ≡ parent_class parents.now.entries class }
{
    parents.get(&class).copied()
}

fn write_element<K: Sink>(
    line: &mut Line,
    class: ClassId,
    number: ElementId,
    element: &Element<'_>,
    out: &mut K,
) -> Result<(), ReportError>
    ensures { WritesLines K.held K.faults K.Offered IsRow out.old out.new
        (element_line class number (element_seen element.now)) result }
{
    let made = make_element_line(
        line,
        class,
        number,
        element.name.as_str(),
        element.span,
        element.is_private,
        element.is_static,
        element.kind,
    );
    line.offer_made(made, out)
}

fn write_elements<K: Sink>(
    line: &mut Line,
    class: ClassId,
    elements: &[Element<'_>],
    out: &mut K,
) -> Result<(), ReportError>
    requires { length elements.now ≤ u32.MAX }
    ensures { WritesLines K.held K.faults K.Offered IsRow out.old out.new
        (numbered_text (λ n e. element_line class n (element_seen e)) 0 elements.now) result }
{
    for (number, element) in elements.iter().enumerate() {
        write_element(line, class, ElementId::new(number as u32), element, out)?;
    }
    Ok(())
}

fn write_uses<K: Sink>(
    line: &mut Line,
    classes: &ClassTable<'_>,
    class: ClassId,
    out: &mut K,
) -> Result<(), ReportError>
    requires { class < length classes.now.nodes }
    ensures { WritesLines K.held K.faults K.Offered IsRow out.old out.new
        (flat_map (private_use_line class) (uses_in classes.now class)) result }
{
    for used in classes.iter_private_identifiers(class) {
        let made = make_private_use_line(
            line,
            class,
            used.id,
            used.name.as_str(),
            used.span,
            used.element_ids.as_slice(),
        );
        line.offer_made(made, out)?;
    }
    Ok(())
}

fn write_class<K: Sink>(
    line: &mut Line,
    classes: &ClassTable<'_>,
    class: ClassId,
    node: NodeId,
    out: &mut K,
) -> Result<(), ReportError>
    requires { class < length classes.now.nodes }
    ensures { WritesLines K.held K.faults K.Offered IsRow out.old out.new
        (class_lines classes.now (class, node)) result }
{
    let parent = parent_in(&classes.parent_ids, class);
    let made = make_class_line(line, class, node, parent);
    line.offer_made(made, out)?;
    write_elements(line, class, classes.elements_of(class), out)?;
    write_uses(line, classes, class, out)
}

/// Writes the lines of the classes, in the order of their ids, each with its elements and the uses of private names.
pub fn write_classes<K: Sink>(
    line: &mut Line,
    classes: &ClassTable<'_>,
    out: &mut K,
) -> Result<(), ReportError>
    ensures { WritesLines K.held K.faults K.Offered IsRow out.old out.new
        (all_class_lines classes.now) result }
{
    for (class, node) in classes.iter_enumerated() {
        write_class(line, classes, class, node, out)?;
    }
    Ok(())
}
