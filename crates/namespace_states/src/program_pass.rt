//! A pass over a program that notes what each node leads to, taken as a statement of a namespace.

ghost use Rattle.std.specs.Prelude.{◌≡◌, List, [], ◌∷◌, Some, map, IfOk, OnOk};
ghost use Rattle.semantic_kinds.specs.declared.role.Role.TheVariants.{Body as body_role, Specifiers as specifiers_role};
ghost use Rattle.semantic_tree.specs.declared.node.Node.{Node};
ghost use Rattle.semantic_tree.specs.Views.{child_of, children_of};
ghost use Rattle.semantic_model.specs.Namespace.{Item, statements, leads_to, target_of, body_items, item_reached, specifier_reached, specifiers_reached, declaration_reached, reach};
ghost use Rattle.namespace_states.specs.Statements.{lists_inside};
ghost use Rattle.namespace_states.specs.Led.{nothing_led, led_to, led_by, led_from};

use crate::leads::Leads;
use crate::open_lists::OpenLists;
use node_rules::declaring::exported;
use node_rules::questions::is_statement_list;
use semantic_syntax::NodeId;
use semantic_tree::{AstKind, AstType, Mark, Program, Role};
use std::alloc::{AllocError, Global};
use std::marker::Model;

/// A pass over a program: the statement lists around where it stands, and what it has noted.
#[derive(Drop)]
struct ProgramPass<'a> {
    lists: OpenLists<'a>,
    leads: Leads,
}

impl<'a> Model for ProgramPass<'a> {
    ghost use Rattle.std.specs.Coded.{codes};
    ghost use Rattle.semantic_tree.specs.contracts.node.Node as node;
    ghost use Rattle.namespace_states.specs.Led.{Passing};

    ghost Value = { Passing };

    ghost coded = { Prim.hlevel (codes, node.the_row.coded) };

    ghost view = { λ p. record { lists = p.lists; led = p.leads } };
}

#[tactic(auto, using(crate::proofs::Leading::leading))]
impl<'a> ProgramPass<'a> {
    /// A statement leads to another.
    fn lead(&mut self, from: NodeId, to: AstKind<'a>) -> Result<(), AllocError>
        ensures { OnOk result (self.new
            ≡ record self.old { led = led_to self.old.led from to.entry.node.now.node_id }) }
    {
        self.leads.lead(from, to.node_id())
    }

    /// A statement leads to those of a block.
    fn follow_block(&mut self, from: NodeId, block: AstKind<'a>) -> Result<(), AllocError>
        ensures { OnOk result (self.new
            ≡ record self.old {
              led = led_by self.old.led from
                  (leads_to (map
                  (λ x. record {
                    node = x;
                    lists = statements block.entry.node.now ∷ self.old.lists;
                  }) (statements block.entry.node.now)));
            }) }
    {
        for statement in block.children(Role::Body) {
            self.lead(from, statement)?;
        }
        Ok(())
    }

    /// A namespace or an external module leads to the statements of its body, or to the namespace that is its body.
    fn follow_body(&mut self, namespace: AstKind<'a>) -> Result<(), AllocError>
        ensures { OnOk result (self.new
            ≡ record self.old {
              led = led_by self.old.led namespace.entry.node.now.node_id
                  (body_items (child_of body_role namespace.entry.node.now) self.old.lists);
            }) }
    {
        let from = namespace.node_id();
        match namespace.child(Role::Body) {
            Some(block) if is_statement_list(block.ty()) => self.follow_block(from, block),
            Some(inner) => self.lead(from, inner),
            None => self.leads.count_value(from),
        }
    }

    /// The statement that declares a name. An import may be a value.
    fn follow_target(&mut self, from: NodeId, target: AstKind<'a>) -> Result<(), AllocError>
        ensures { (item : Item) → item.node ≡ target.entry.node.now
            → OnOk result (self.new
            ≡ record self.old { led = led_by self.old.led from (item_reached (Some item)) }) }
    {
        if exported(target).ty() == AstType::TSImportEqualsDeclaration {
            self.leads.count_value(from)
        } else {
            self.lead(from, target)
        }
    }

    /// A name leads to the statement that declares it. One that isn't declared may be a value.
    fn follow_name(&mut self, from: NodeId, local: AstKind<'a>) -> Result<(), AllocError>
        ensures { OnOk result (self.new
            ≡ record self.old {
              led = led_by self.old.led from
                  (item_reached (target_of local.entry.node.now.text self.old.lists));
            }) }
    {
        match self.lists.target(local.text()) {
            Some(target) => self.follow_target(from, target),
            None => self.leads.count_value(from),
        }
    }

    /// Where an exported name leads.
    fn follow_specifier(&mut self, from: NodeId, specifier: AstKind<'a>) -> Result<(), AllocError>
        ensures { OnOk result (self.new
            ≡ record self.old {
              led = led_by self.old.led from
                  (specifier_reached self.old.lists specifier.entry.node.now);
            }) }
    {
        match specifier.child(Role::Local) {
            Some(local) if local.ty() == AstType::IdentifierReference => {
                self.follow_name(from, local)
            }
            _ => self.leads.count_value(from),
        }
    }

    /// Where the exported names lead.
    fn follow_specifiers(&mut self, statement: AstKind<'a>) -> Result<(), AllocError>
        ensures { OnOk result (self.new
            ≡ record self.old {
              led = led_by self.old.led statement.entry.node.now.node_id
                  (specifiers_reached
                  (map (specifier_reached self.old.lists)
                  (children_of specifiers_role statement.entry.node.now.children)));
            }) }
    {
        let from = statement.node_id();
        for specifier in statement.children(Role::Specifiers) {
            self.follow_specifier(from, specifier)?;
        }
        Ok(())
    }

    /// What an exported declaration is.
    fn follow_declaration(
        &mut self,
        from: NodeId,
        declaration: AstKind<'a>,
    ) -> Result<(), AllocError>
        ensures { OnOk result (self.new
            ≡ record self.old {
              led = led_by self.old.led from
                  (declaration_reached self.old.lists declaration.entry.node.now);
            }) }
    {
        match declaration.ty() {
            AstType::TSNamespaceDeclaration | AstType::TSExternalModuleDeclaration => {
                self.lead(from, declaration)
            }
            AstType::TSTypeAliasDeclaration | AstType::TSInterfaceDeclaration => Ok(()),
            _ => self.leads.count_value(from),
        }
    }

    /// What a statement counts as, and where it leads.
    fn follow(&mut self, statement: AstKind<'a>) -> Result<(), AllocError>
        ensures { OnOk result (self.new
            ≡ record self.old {
              led = led_by self.old.led statement.entry.node.now.node_id
                  (reach (record { node = statement.entry.node.now; lists = self.old.lists }));
            }) }
    {
        let from = statement.node_id();
        match statement.ty() {
            AstType::TSInterfaceDeclaration
            | AstType::TSTypeAliasDeclaration
            | AstType::TSImportEqualsDeclaration => Ok(()),
            AstType::TSEnumDeclaration if statement.has_mark(Mark::Const) => {
                self.leads.count_const_enum(from)
            }
            AstType::TSNamespaceDeclaration | AstType::TSExternalModuleDeclaration => {
                self.follow_body(statement)
            }
            AstType::ExportDeclaration => self.follow_declaration(from, exported(statement)),
            AstType::ExportDefaultDeclaration
                if exported(statement).ty() == AstType::TSInterfaceDeclaration => { Ok(()) }
            AstType::ExportNamedDeclaration => self.follow_specifiers(statement),
            _ => self.leads.count_value(from),
        }
    }

    /// Goes into the node, if it is a statement list.
    fn open(&mut self, kind: AstKind<'a>) -> Result<(), AllocError>
        ensures { OnOk result (self.new
            ≡ record self.old { lists = lists_inside kind.entry.node.now self.old.lists }) }
    {
        if is_statement_list(kind.ty()) {
            self.lists.open(kind)
        } else {
            Ok(())
        }
    }

    /// Goes out of the node.
    fn close(&mut self, kind: AstKind<'a>)
        ensures { (lists : List (List Node))
            → self.old.lists ≡ lists_inside kind.entry.node.now lists
            → self.new ≡ record self.old { lists = lists } }
    {
        if is_statement_list(kind.ty()) {
            self.lists.close();
        }
    }

    /// Notes a node and all below it.
    #[tactic(auto, using(semantic_tree::specs::Falls::below))]
    fn visit(&mut self, kind: AstKind<'a>) -> Result<(), AllocError>
        ensures { OnOk result (self.new
            ≡ record self.old { led = led_from self.old.lists kind.entry.node.now self.old.led }) }
    {
        self.follow(kind)?;
        self.open(kind)?;
        for (_, child) in kind.node().children.as_slice() {
            self.visit(AstKind::new(child))?;
        }
        self.close(kind);
        Ok(())
    }
}

/// What the nodes of a program lead to and count as. Takes time linear in the nodes, but for the statement lists around
/// exported names, which are asked one by one. The only error is want of memory.
pub fn leads_of(alloc: Global, program: &Program) -> Result<Leads, AllocError>
    ensures { IfOk result (λ leads. leads ≡ led_from [] program.now.root nothing_led) }
{
    let mut pass = ProgramPass {
        lists: OpenLists::new(alloc),
        leads: Leads::new(alloc),
    };
    pass.visit(program.root())?;
    Ok(pass.leads)
}
