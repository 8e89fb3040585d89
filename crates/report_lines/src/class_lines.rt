//! The lines on classes, their elements, and the uses of private names.
ghost use Rattle.std.specs.Prelude.{ℕ, ◌≡◌, ◌++◌, OnOk};
ghost use Rattle.report_lines.specs.Pieces.{numbers_text, element_flags};
ghost use Rattle.report_lines.specs.ClassLines.{privacy, ownership, class_line, element_head, element_end, private_use_text};

use crate::flags::push_flags;
use crate::line::Line;
use semantic_syntax::{ClassId, ElementId, ElementKind, NodeId, Span};
use std::alloc::AllocError;

fn push_element_flags(line: &mut Line, flags: ElementKind) -> Result<(), AllocError>
    ensures { OnOk result (line.new ≡ line.old ++ element_flags flags) }
{
    push_flags(line, flags)
}

fn privacy_text(is_private: bool) -> &'static str
    ensures { result.now ≡ privacy is_private }
{
    if is_private { "private" } else { "public" }
}

fn ownership_text(is_static: bool) -> &'static str
    ensures { result.now ≡ ownership is_static }
{
    if is_static { "static" } else { "instance" }
}

/// Makes the line of a class.
#[tactic(auto, unfolding(crate::specs::ClassLines::class_line))]
pub fn make_class_line(
    line: &mut Line,
    class: ClassId,
    node: NodeId,
    parent: Option<ClassId>,
) -> Result<(), AllocError>
    ensures { OnOk result (line.new ≡ class_line class node parent) }
{
    line.begin();
    line.push_labelled("class ", class.index())?;
    line.push_labelled(" node ", node.index())?;
    line.push_number_or_dash(" parent ", parent.map(ClassId::index))?;
    line.push("\n")
}

// Adds what an element is.
#[tactic(auto, unfolding(crate::specs::ClassLines::element_end))]
fn push_element_end(
    line: &mut Line,
    is_private: bool,
    is_static: bool,
    kind: ElementKind,
) -> Result<(), AllocError>
    ensures { OnOk result (line.new ≡ line.old ++ element_end is_private is_static kind) }
{
    line.push(" ")?;
    line.push(privacy_text(is_private))?;
    line.push(" ")?;
    line.push(ownership_text(is_static))?;
    line.push(" kind ")?;
    push_element_flags(line, kind)?;
    line.push("\n")
}

/// Makes the line of an element of a class.
#[tactic(auto, unfolding(crate::specs::ClassLines::element_head))]
pub fn make_element_line(
    line: &mut Line,
    class: ClassId,
    element: ElementId,
    name: &str,
    span: Span,
    is_private: bool,
    is_static: bool,
    kind: ElementKind,
) -> Result<(), AllocError>
    ensures { OnOk result (line.new
        ≡ element_head class element name.now span ++ element_end is_private is_static kind) }
{
    line.begin();
    line.push_labelled("element ", class.index())?;
    line.push_labelled(" ", element.index())?;
    line.push_quoted(" ", name)?;
    line.push_span(" span ", span)?;
    push_element_end(line, is_private, is_static, kind)
}

// Adds a space and a number for each element.
fn push_elements(line: &mut Line, elements: &[ElementId]) -> Result<(), AllocError>
    ensures { OnOk result (line.new ≡ line.old ++ numbers_text elements.now) }
{
    for element in elements {
        line.push_behind_space(element.index())?;
    }
    Ok(())
}

/// Makes the line of a use of a private name in a class, with the elements that it may mean.
#[tactic(auto, unfolding(crate::specs::ClassLines::private_use_text))]
pub fn make_private_use_line(
    line: &mut Line,
    class: ClassId,
    node: NodeId,
    name: &str,
    span: Span,
    elements: &[ElementId],
) -> Result<(), AllocError>
    ensures { OnOk result (line.new ≡ private_use_text class node name.now span elements.now) }
{
    line.begin();
    line.push_labelled("use ", class.index())?;
    line.push_labelled(" node ", node.index())?;
    line.push_quoted(" ", name)?;
    line.push_span(" span ", span)?;
    line.push(" elements")?;
    push_elements(line, elements)?;
    line.push("\n")
}
