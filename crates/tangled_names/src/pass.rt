//! One pass over a tree, which notes what is said of names.
ghost use Rattle.std.specs.Prelude.{◌≡◌, ◌++◌, [], codes, map, OnOk, IfOk};
ghost use Rattle.scoping_rows.specs.Names.{name_of};
ghost use Rattle.semantic_tree.specs.Views.{child_of};
ghost use Rattle.semantic_kinds.specs.declared.role.Role.TheVariants.{Id as id_role, Body as body_role, Parameter as parameter_role};
ghost use Rattle.tangle_model.specs.Mention.{mentions, noted_if, identifier_noted, is_block_function, is_inner_function, function_noted, declaration_noted, named_noted, noted, enum_noted, reference_noted, inferred_noted, name_of_parameter, noted_by};
ghost use Rattle.tangle_model.specs.Surroundings as surroundings;
ghost use Rattle.tangle_model.specs.declared.what.What.TheVariants.{Block as block_noted};
ghost use Rattle.tangled_names.specs.Gathered.{noted_of, mentions_from};

use crate::mention::Mention;
use crate::surroundings::{around_in, outermost};
use node_rules::rows::{is_special, is_statement};
use semantic_syntax::Ident;
use semantic_tree::{AstKind, AstType, Program, Role};
use std::alloc::{AllocError, Global};
use std::marker::Model;
use tangle_model::{Around, Declarer, What};

/// What is noted of the names of a tree, in preorder.
#[derive(Drop)]
pub struct MentionPass<'a> {
    mentions: Vec<Mention<'a>>,
}

impl<'a> Model for MentionPass<'a> {
    ghost use Rattle.std.specs.Prelude.{List, map};
    ghost use Rattle.tangle_model.specs.Mention.{Mention};
    ghost use Rattle.tangled_names.specs.Gathered.{noted_of};

    ghost Value = { List Mention };

    ghost view = { λ a. map noted_of a.mentions.items };
}

/// Whether the function is a plain one in a block, a case or as the body of an `if` of sloppy code (ECMAScript, Annex
/// B.3.2, B.3.3).
fn is_block_function(function: AstKind<'_>, around: &Around) -> bool
    ensures { result ≡ is_block_function around.now function.entry.node.now }
{
    around.in_block && !around.is_strict && !is_special(function)
}

/// Whether a function declaration there stands in a block, a loop, a `switch` or a `with` of sloppy code.
fn is_inner_function(around: &Around) -> bool
    ensures { result ≡ is_inner_function around.now }
{
    around.in_inner_block && !around.is_strict
}

/// The name of all `global` blocks.
#[tactic(auto, using(crate::proofs::Words::global))]
fn global_name() -> Ident<'static>
    ensures { name_of result ≡ codes "global" }
{
    Ident::new("global")
}

impl<'a> MentionPass<'a> {
    /// Nothing is noted.
    fn new(alloc: Global) -> MentionPass<'a>
        ensures { result ≡ [] }
    {
        MentionPass {
            mentions: Vec::new(alloc),
        }
    }

    /// What is noted of the names of a program. The only error is want of memory.
    pub fn over(alloc: Global, program: &'a Program) -> Result<MentionPass<'a>, AllocError>
        ensures { IfOk result (λ pass. pass ≡ mentions program.now) }
    {
        let mut pass = MentionPass::new(alloc);
        pass.gather(program.root(), &outermost(program.source_type()))?;
        Ok(pass)
    }

    /// What is noted, in preorder.
    pub fn as_slice(&self) -> &[Mention<'a>]
        ensures { map noted_of result.now ≡ self.now }
    {
        self.mentions.as_slice()
    }

    /// Notes that of the name, if it is so.
    fn note_if(
        &mut self,
        is: bool,
        what: What,
        home: usize,
        name: Ident<'a>,
    ) -> Result<(), AllocError>
        ensures { OnOk result (self.new ≡ self.old ++ noted_if is what home (name_of name.entry)) }
    {
        if is {
            self.mentions.push(Mention { what, home, name })?;
        }
        Ok(())
    }

    /// Notes what is said of a binding identifier.
    fn note_identifier(&mut self, name: Ident<'a>, around: &Around) -> Result<(), AllocError>
        ensures { OnOk result (self.new
            ≡ self.old ++ identifier_noted around.now (name_of name.entry)) }
    {
        let declarer = around.declarer;
        let home = around.home.index();
        let is_var = declarer == Declarer::Var;
        self.note_if(
            declarer != Declarer::Function,
            What::Declaration,
            home,
            name,
        )?;
        self.note_if(
            declarer == Declarer::CatchParameter,
            What::CatchName,
            home,
            name,
        )?;
        self.note_if(is_var && around.in_catch, What::VarInCatch, home, name)?;
        self.note_if(is_var && around.in_with, What::InWith, home, name)?;
        self.note_if(
            is_var && around.in_inner_block,
            What::PassingVariable,
            home,
            name,
        )
    }

    /// Notes what is said of the name of a function declaration.
    fn note_function(
        &mut self,
        function: AstKind<'a>,
        name: Ident<'a>,
        around: &Around,
    ) -> Result<(), AllocError>
        ensures { OnOk result (self.new
            ≡ self.old ++ function_noted around.now function.entry.node.now (name_of name.entry)) }
    {
        let is_block_function = is_block_function(function, around);
        let home = around.home.index();
        self.note_if(true, What::Declaration, home, name)?;
        self.note_if(is_block_function, What::BlockFunction, home, name)?;
        self.note_if(is_inner_function(around), What::InnerFunction, home, name)
    }

    /// Notes the function, if it is a declaration with a name.
    fn note_declared(&mut self, function: AstKind<'a>, around: &Around) -> Result<(), AllocError>
        ensures { OnOk result (self.new
            ≡ self.old ++ declaration_noted around.now function.entry.node.now) }
    {
        if !is_statement(function) {
            return Ok(());
        }
        match function.child(Role::Id) {
            Some(id) => self.note_function(function, id.text(), around),
            None => Ok(()),
        }
    }

    /// Notes a block with the name of the node, whose scope the node opens.
    fn note_block(&mut self, node: AstKind<'a>) -> Result<(), AllocError>
        ensures { OnOk result (self.new
            ≡ self.old ++ named_noted (noted block_noted node.entry.node.now.node_id)
            (child_of id_role node.entry.node.now)) }
    {
        match node.child(Role::Id) {
            Some(id) => self.note_if(true, What::Block, node.node_id().index(), id.text()),
            None => Ok(()),
        }
    }

    /// Notes an enum, whose scope its body opens.
    fn note_enum(&mut self, node: AstKind<'a>) -> Result<(), AllocError>
        ensures { OnOk result (self.new
            ≡ self.old ++ enum_noted (child_of id_role node.entry.node.now)
            (child_of body_role node.entry.node.now)) }
    {
        match (node.child(Role::Id), node.child(Role::Body)) {
            (Some(id), Some(body)) => {
                self.note_if(true, What::Block, body.node_id().index(), id.text())
            }
            (_, _) => Ok(()),
        }
    }

    /// Notes what is said of a reference.
    fn note_reference(&mut self, name: Ident<'a>, around: &Around) -> Result<(), AllocError>
        ensures { OnOk result (self.new
            ≡ self.old ++ reference_noted around.now (name_of name.entry)) }
    {
        let home = around.home.index();
        let extends = around.extends.index();
        let signature = around.index_signature.index();
        self.note_if(around.in_with, What::InWith, home, name)?;
        self.note_if(extends != 0, What::BesideInfer, extends, name)?;
        self.note_if(signature != 0, What::InIndexSignature, signature, name)?;
        self.note_if(
            around.in_type_parameters,
            What::InTypeParameters,
            home,
            name,
        )?;
        self.note_if(around.exports_types, What::ExportedType, home, name)
    }

    /// Notes a name that `infer` declares, by what is around its type parameter.
    fn note_inferred(&mut self, name: Ident<'a>, around: &Around) -> Result<(), AllocError>
        ensures { OnOk result (self.new
            ≡ self.old ++ inferred_noted around.now (name_of name.entry)) }
    {
        let extends = around.extends.index();
        self.note_if(true, What::Inferred, extends, name)?;
        self.note_if(!around.in_extends, What::BesideInfer, extends, name)
    }

    /// Notes what an `infer` declares.
    fn note_infer(&mut self, infer: AstKind<'a>, around: &Around) -> Result<(), AllocError>
        ensures { OnOk result (self.new
            ≡ self.old ++ named_noted
            (inferred_noted (surroundings.around_in around.now infer.entry.node.now))
            (name_of_parameter (child_of parameter_role infer.entry.node.now))) }
    {
        let Some(parameter) = infer.child(Role::Parameter) else {
            return Ok(());
        };
        match parameter.child(Role::Name) {
            Some(id) => self.note_inferred(id.text(), &around_in(infer, around)),
            None => Ok(()),
        }
    }

    /// Notes what is said of names at the node.
    fn note(&mut self, node: AstKind<'a>, around: &Around) -> Result<(), AllocError>
        ensures { OnOk result (self.new
            ≡ self.old ++ noted_by node.entry.node.now.kind around.now node.entry.node.now) }
    {
        match node.ty() {
            AstType::BindingIdentifier => self.note_identifier(node.text(), around),
            AstType::IdentifierReference => self.note_reference(node.text(), around),
            AstType::Function => self.note_declared(node, around),
            AstType::TSNamespaceDeclaration | AstType::TSExternalModuleDeclaration => {
                self.note_block(node)
            }
            AstType::TSGlobalDeclaration => {
                self.note_if(true, What::Block, node.node_id().index(), global_name())
            }
            AstType::TSEnumDeclaration => self.note_enum(node),
            AstType::TSInferType => self.note_infer(node, around),
            AstType::TSIndexSignatureName => {
                self.note_if(
                    true,
                    What::IndexParameter,
                    around.index_signature.index(),
                    node.text(),
                )
            }
            _ => Ok(()),
        }
    }

    /// Notes what is said of names at the node and at all below it.
    #[tactic(auto, using(semantic_tree::specs::Falls::below))]
    fn gather(&mut self, node: AstKind<'a>, around: &Around) -> Result<(), AllocError>
        ensures { OnOk result (self.new ≡ mentions_from around.now node.entry.node.now self.old) }
    {
        self.note(node, around)?;
        let inside = around_in(node, around);
        for (_, child) in node.node().children.as_slice() {
            self.gather(AstKind::new(child), &inside)?;
        }
        Ok(())
    }
}
