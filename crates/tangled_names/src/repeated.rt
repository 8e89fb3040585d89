//! Which names are noted, and which more than once; and which names several symbols have.
ghost use Rattle.std.specs.Prelude.{◌≡◌, ◌&&◌, [], true, map, IfOk, OnOk};
ghost use Rattle.std.specs.Str.{chars};
ghost use Rattle.semantic_syntax.specs.Tables.{Name};
ghost use Rattle.tangle_model.specs.Repeated.{Key, key_of, keys_of, key_stands, repeats};
ghost use Rattle.tangle_model.specs.Tangled.{is_shared};
ghost use Rattle.tangled_names.specs.Gathered.{noted_of};
ghost use Rattle.tangled_names.specs.Stored.{with_key_if, name_key, has_name};

use crate::key_set::KeySet;
use crate::mention::{Mention, is_of};
use scoping::Scoping;
use semantic_syntax::SymbolId;
use std::alloc::{AllocError, Global};
use tangle_model::What;

/// The names of what is noted as that, at their homes.
pub fn noted_keys<'a>(
    alloc: Global,
    mentions: &[Mention<'a>],
    what: What,
) -> Result<KeySet<'a>, AllocError>
    ensures { IfOk result (λ keys. (k : Key)
        → key_stands k keys ≡ key_stands k (keys_of what (map noted_of mentions.now))) }
{
    let mut keys = KeySet::new(alloc);
    for mention in mentions {
        let is = is_of(mention, what);
        keys.add_key_if(is, mention)?;
    }
    Ok(keys)
}

/// Names that were met, and those of them that were met again.
#[derive(Drop)]
struct Met<'a> {
    seen: KeySet<'a>,
    again: KeySet<'a>,
}

/// Adds the name of what is noted, if it is so.
fn meet<'a>(met: &mut Met<'a>, is: bool, mention: &Mention<'a>) -> Result<(), AllocError>
    ensures seen { OnOk result (met.new.seen
        ≡ with_key_if is met.old.seen (key_of (noted_of mention.now))) }
    ensures again { OnOk result (met.new.again
        ≡ with_key_if (is && key_stands (key_of (noted_of mention.now)) met.old.seen) met.old.again
        (key_of (noted_of mention.now))) }
{
    let is_again = is && met.seen.has_key(mention);
    met.again.add_key_if(is_again, mention)?;
    met.seen.add_key_if(is, mention)
}

/// The names of what is noted as that more than once at one home.
pub fn repeated_keys<'a>(
    alloc: Global,
    mentions: &[Mention<'a>],
    what: What,
) -> Result<KeySet<'a>, AllocError>
    ensures { IfOk result (λ keys. (k : Key)
        → key_stands k keys ≡ repeats k (keys_of what (map noted_of mentions.now))) }
{
    let mut met = Met {
        seen: KeySet::new(alloc),
        again: KeySet::new(alloc),
    };
    for mention in mentions {
        let is = is_of(mention, what);
        meet(&mut met, is, mention)?;
    }
    Ok(met.again)
}

/// Adds the name.
fn meet_name<'a>(met: &mut Met<'a>, name: &'a str) -> Result<(), AllocError>
    ensures seen { OnOk result (met.new.seen
        ≡ with_key_if true met.old.seen (name_key (chars name.now))) }
    ensures again { OnOk result (met.new.again
        ≡ with_key_if (has_name met.old.seen (chars name.now)) met.old.again
        (name_key (chars name.now))) }
{
    let is_again = met.seen.has_name(name);
    met.again.add_name_if(is_again, name)?;
    met.seen.add_name_if(true, name)
}

/// The names that two symbols have, or more.
pub fn shared_names(alloc: Global, scoping: &Scoping) -> Result<KeySet<'_>, AllocError>
    ensures { IfOk result (λ names. (name : Name)
        → has_name names name ≡ is_shared scoping.now.symbols name) }
{
    let mut met = Met {
        seen: KeySet::new(alloc),
        again: KeySet::new(alloc),
    };
    let count = scoping.symbols_len() as u32;
    for number in 0..count {
        let symbol = SymbolId::new(number);
        meet_name(&mut met, scoping.symbol_name(symbol))?;
    }
    Ok(met.again)
}
