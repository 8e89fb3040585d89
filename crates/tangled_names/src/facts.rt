//! What is known of the names of a program: for which of them each reason holds.
ghost use Rattle.std.specs.Prelude.{◌≡◌, ◌&&◌, ℕ, map, IfOk};
ghost use Rattle.semantic_syntax.specs.Members.{contains};
ghost use Rattle.semantic_syntax.specs.Tables.{Name};
ghost use Rattle.tangle_model.specs.Repeated.{is_mention_of, key_of, keys_of, key_stands};
ghost use Rattle.tangle_model.specs.Tangled.{any_mention, any_symbol, is_merged_member, meets_declaration};
ghost use Rattle.tangled_names.specs.Facts.{NamesHold, NamesakesHold, PlacesHold, ScopesHold};
ghost use Rattle.tangled_names.specs.Gathered.{noted_of};
ghost use Rattle.tangled_names.specs.Stored.{has_name, node_key, openers_by};

use crate::key_set::KeySet;
use crate::mention::{Mention, is_of};
use crate::repeated::{noted_keys, repeated_keys, shared_names};
use crate::symbol_names::{Question, names_where};
use crate::typed_facts::TypedFacts;
use scoping::Scoping;
use std::alloc::{AllocError, Global};
use tangle_model::What;

/// The names in places where tables and language may part.
#[derive(Drop)]
pub struct PlaceFacts<'a> {
    pub(crate) block_functions: KeySet<'a>,
    pub(crate) catch_variables: KeySet<'a>,
    pub(crate) in_with: KeySet<'a>,
}

/// The names in scopes where tables and language may part.
#[derive(Drop)]
pub struct ScopeFacts<'a> {
    pub(crate) seen_by_eval: KeySet<'a>,
    pub(crate) merged: KeySet<'a>,
}

/// The names by which another symbol may be meant.
#[derive(Drop)]
pub struct NamesakeFacts<'a> {
    pub(crate) passed: KeySet<'a>,
    pub(crate) shared: KeySet<'a>,
}

/// The names for which each reason holds that is not seen from a name alone.
#[derive(Drop)]
pub struct NameFacts<'a> {
    pub(crate) places: PlaceFacts<'a>,
    pub(crate) scopes: ScopeFacts<'a>,
    pub(crate) namesakes: NamesakeFacts<'a>,
    pub(crate) typed: TypedFacts<'a>,
}

/// Whether that is what is noted, and its name is among the keys at its home.
fn is_among(mention: &Mention<'_>, what: What, keys: &KeySet<'_>) -> bool
    ensures { result ≡ (is_mention_of what (noted_of mention.now)
        && key_stands (key_of (noted_of mention.now)) keys.now) }
{
    is_of(mention, what) && keys.has_key(mention)
}

/// The names of what is noted as that, where they are among the keys at their homes.
fn names_among<'a>(
    alloc: Global,
    mentions: &[Mention<'a>],
    what: What,
    keys: &KeySet<'_>,
) -> Result<KeySet<'a>, AllocError>
    ensures { IfOk result (λ names. (name : Name)
        → has_name names name ≡ any_mention
        (λ m. is_mention_of what m && key_stands (key_of m) keys.now)
        (map noted_of mentions.now) name) }
{
    let mut names = KeySet::new(alloc);
    for mention in mentions {
        let is = is_among(mention, what, keys);
        names.add_name_if(is, mention.name.as_str())?;
    }
    Ok(names)
}

/// The names of what is noted as that.
pub fn noted_names<'a>(
    alloc: Global,
    mentions: &[Mention<'a>],
    what: What,
) -> Result<KeySet<'a>, AllocError>
    ensures { IfOk result (λ names. (name : Name)
        → has_name names name ≡ any_mention (is_mention_of what) (map noted_of mentions.now) name) }
{
    let mut names = KeySet::new(alloc);
    for mention in mentions {
        let is = is_of(mention, what);
        names.add_name_if(is, mention.name.as_str())?;
    }
    Ok(names)
}

/// The nodes that open the scopes of blocks, where their names are among the keys.
fn openers_among<'a>(
    alloc: Global,
    mentions: &[Mention<'a>],
    keys: &KeySet<'_>,
) -> Result<KeySet<'a>, AllocError>
    ensures { IfOk result (λ openers. (n : ℕ)
        → key_stands (node_key n) openers
        ≡ contains (openers_by keys.now (map noted_of mentions.now)) n) }
{
    let mut openers = KeySet::new(alloc);
    for mention in mentions {
        let is = is_among(mention, What::Block, keys);
        openers.add_node_if(is, mention.home)?;
    }
    Ok(openers)
}

/// The names of block functions that meet another declaration.
fn block_functions<'a>(alloc: Global, mentions: &[Mention<'a>]) -> Result<KeySet<'a>, AllocError>
    ensures { IfOk result (λ names. (name : Name)
        → has_name names name ≡ any_mention (meets_declaration (map noted_of mentions.now))
        (map noted_of mentions.now) name) }
{
    let repeated = repeated_keys(alloc, mentions, What::Declaration)?;
    names_among(alloc, mentions, What::BlockFunction, &repeated)
}

/// The names of what is noted as the first, where they are noted as the second at the same homes.
pub fn met_names<'a>(
    alloc: Global,
    mentions: &[Mention<'a>],
    what: What,
    met: What,
) -> Result<KeySet<'a>, AllocError>
    ensures { IfOk result (λ names. (name : Name)
        → has_name names name ≡ any_mention
        (λ m. is_mention_of what m
        && key_stands (key_of m) (keys_of met (map noted_of mentions.now)))
        (map noted_of mentions.now) name) }
{
    let keys = noted_keys(alloc, mentions, met)?;
    names_among(alloc, mentions, what, &keys)
}

/// The names of members of blocks that are declared more than once.
fn merged_members<'a>(
    alloc: Global,
    mentions: &[Mention<'a>],
    scoping: &'a Scoping,
) -> Result<KeySet<'a>, AllocError>
    ensures { IfOk result (λ names. (name : Name)
        → has_name names name ≡ any_symbol
        (is_merged_member (map noted_of mentions.now) scoping.now) scoping.now.symbols name) }
{
    let repeated = repeated_keys(alloc, mentions, What::Block)?;
    let openers = openers_among(alloc, mentions, &repeated)?;
    let names = names_where(alloc, scoping, Question::BoundBy(&openers))?;
    Ok(names)
}

impl<'a> PlaceFacts<'a> {
    /// The names in such places, where this is noted in a program. The only error is want of memory.
    fn of(alloc: Global, mentions: &[Mention<'a>]) -> Result<PlaceFacts<'a>, AllocError>
        ensures { IfOk result (λ f. PlacesHold f (map noted_of mentions.now)) }
    {
        let block_functions = block_functions(alloc, mentions)?;
        let catch_variables = met_names(alloc, mentions, What::VarInCatch, What::CatchName)?;
        let in_with = noted_names(alloc, mentions, What::InWith)?;
        Ok(PlaceFacts {
            block_functions,
            catch_variables,
            in_with,
        })
    }
}

impl<'a> ScopeFacts<'a> {
    /// The names in such scopes, where this is noted in a program and these are its tables. The only error is want of
    /// memory.
    fn of(
        alloc: Global,
        mentions: &[Mention<'a>],
        scoping: &'a Scoping,
    ) -> Result<ScopeFacts<'a>, AllocError>
        ensures { IfOk result (λ f. ScopesHold f (map noted_of mentions.now) scoping.now) }
    {
        let seen_by_eval = names_where(alloc, scoping, Question::SeenByEval)?;
        let merged = merged_members(alloc, mentions, scoping)?;
        Ok(ScopeFacts {
            seen_by_eval,
            merged,
        })
    }
}

impl<'a> NamesakeFacts<'a> {
    /// Those names in these tables. The only error is want of memory.
    fn of(alloc: Global, scoping: &'a Scoping) -> Result<NamesakeFacts<'a>, AllocError>
        ensures { IfOk result (λ f. NamesakesHold f scoping.now) }
    {
        let passed = names_where(alloc, scoping, Question::Passed)?;
        let shared = shared_names(alloc, scoping)?;
        Ok(NamesakeFacts { passed, shared })
    }
}

impl<'a> NameFacts<'a> {
    /// What is known of the names of a program, where this is noted in it and these are its tables. The only error is
    /// want of memory.
    pub fn of(
        alloc: Global,
        mentions: &[Mention<'a>],
        scoping: &'a Scoping,
    ) -> Result<NameFacts<'a>, AllocError>
        ensures { IfOk result (λ f. NamesHold f (map noted_of mentions.now) scoping.now) }
    {
        let places = PlaceFacts::of(alloc, mentions)?;
        let scopes = ScopeFacts::of(alloc, mentions, scoping)?;
        let namesakes = NamesakeFacts::of(alloc, scoping)?;
        let typed = TypedFacts::of(alloc, mentions, scoping)?;
        Ok(NameFacts {
            places,
            scopes,
            namesakes,
            typed,
        })
    }
}
