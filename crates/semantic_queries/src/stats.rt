//! How large the tables of a program are.

ghost use Rattle.std.specs.Prelude.{◌≡◌, ◌+◌, ◌<◌, ◌^◌, cond};
ghost use Rattle.semantic_kinds.specs.declared.role.Role.TheVariants as role;
ghost use Rattle.semantic_tree.specs.Children.{single};
ghost use Rattle.semantic_model.specs.Inside.{opens};
ghost use Rattle.semantic_model.specs.TablesOf.{tables_of};
ghost use Rattle.walk_model.specs.Counted.{declares_symbol, is_reference};
ghost use Rattle.semantic_queries.specs.Tally.{increased, IsCount, IsSizeOf, IsAccurate};

use node_rules::inside::opens;
use semantic_tree::{AstType, Program};

/// How many nodes, scopes, symbols and references there are.
#[derive(Clone, Copy, PartialEq, Eq, Debug, Default)]
pub struct Stats {
    pub nodes: u32,
    pub scopes: u32,
    pub symbols: u32,
    pub references: u32,
}

/// Whether a node of the kind may declare a symbol: it is a binding identifier or an enum member.
fn is_symbol(kind: AstType) -> bool
    ensures { result ≡ declares_symbol kind }
{
    matches!(kind, AstType::BindingIdentifier | AstType::TSEnumMember)
}

/// The count, where the test passes.
fn count_where(passes: bool, count: u32) -> u32
    ensures { result ≡ cond passes count 0 }
{
    if passes { count } else { 0 }
}

/// A number and so many thousandths of it, rounded down, and at most `u32::MAX`.
fn increased(n: u32, thousandths: u32) -> u32
    ensures { result ≡ increased thousandths n }
{
    let whole = u128::from(n) * (1000 + u128::from(thousandths)) / 1000;
    whole.min(u128::from(u32::MAX)) as u32
}

impl Stats {
    /// Counts of a program, which `with_stats` takes as hints for how much room to make.
    pub fn new(nodes: u32, scopes: u32, symbols: u32, references: u32) -> Self
        ensures { result ≡ record {
          nodes = nodes;
          scopes = scopes;
          symbols = symbols;
          references = references;
        } }
    {
        Stats {
            nodes,
            scopes,
            symbols,
            references,
        }
    }

    /// The nodes of a program, the scopes that they open, the identifiers that may declare a symbol, enum members
    /// among them, and the identifier references. The program's tables have so many scopes and references, and no more
    /// symbols.
    pub fn count(p: &Program) -> Stats
        ensures nodes { IsCount result (single role.Root p.now.root) }
        ensures tables { IsSizeOf result (tables_of p.now) }
    {
        p.root();
        let mut stats = Stats::new(p.node_count(), 0, 0, 0);
        for kind in AstType::all() {
            stats.add_kind(*kind, p.count_of(*kind));
        }
        stats
    }

    /// Counts so many nodes of a kind, but for the nodes themselves.
    fn add_kind(&mut self, kind: AstType, count: u32)
        requires scopes { self.old.scopes + cond (opens kind) count 0 < 2 ^ 32 }
        requires symbols { self.old.symbols + cond (declares_symbol kind) count 0 < 2 ^ 32 }
        requires references { self.old.references + cond (is_reference kind) count 0 < 2 ^ 32 }
        ensures { self.new ≡ record self.old {
          scopes = self.old.scopes + cond (opens kind) count 0;
          symbols = self.old.symbols + cond (declares_symbol kind) count 0;
          references = self.old.references + cond (is_reference kind) count 0;
        } }
    {
        self.scopes += count_where(opens(kind), count);
        self.symbols += count_where(is_symbol(kind), count);
        self.references += count_where(kind == AstType::IdentifierReference, count);
    }

    /// Scopes, symbols and references with so many thousandths more, rounded down, and at most `u32::MAX` each.
    pub fn increase_by(self, thousandths: u32) -> Stats
        ensures { result ≡ record self {
          scopes = increased thousandths self.scopes;
          symbols = increased thousandths self.symbols;
          references = increased thousandths self.references;
        } }
    {
        Stats {
            nodes: self.nodes,
            scopes: increased(self.scopes, thousandths),
            symbols: increased(self.symbols, thousandths),
            references: increased(self.references, thousandths),
        }
    }

    /// Attests that the counts are the actual ones, where symbols may be fewer than counted.
    pub fn assert_accurate(self, actual: Stats)
        requires { IsAccurate self actual }
    {
        prove!(self.nodes == actual.nodes);
        prove!(self.scopes == actual.scopes);
        prove!(actual.symbols <= self.symbols);
        prove!(self.references == actual.references);
    }
}
