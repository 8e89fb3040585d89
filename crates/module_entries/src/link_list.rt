//! The links of a set of modules.
ghost use Rattle.std.specs.Prelude.{◌≡◌};

use link_model::Link;
use std::marker::Model;

/// The links of the import specifiers of a set, in order of module and node. Contracts see their list.
#[derive(Drop)]
pub struct Links {
    list: Vec<Link>,
}

impl Model for Links {
    ghost use Rattle.std.specs.Prelude.{List};
    ghost use Rattle.link_model.specs.declared.outcome.Link.{Link};

    ghost Value = { List Link };

    ghost view = { λ l. l.list.items };
}

impl Links {
    pub fn new(list: Vec<Link>) -> Links
        ensures { result ≡ list.items }
    {
        Links { list }
    }

    /// The links, in order.
    pub fn as_slice(&self) -> &[Link]
        ensures { result.now ≡ self.now }
    {
        self.list.as_slice()
    }
}
