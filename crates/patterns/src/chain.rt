// The walk along a chain of the index: the clauses of one key, one after another.
ghost use Rattle.std.specs.Prelude.{◌≡◌, ◌<◌, map};
ghost use Rattle.tables.specs.Literal.{literal};
ghost use Rattle.tables.specs.Clause.{clauses};
ghost use Rattle.patterns.specs.Index.{Begins};

use crate::index::{Index, KEYS};
use tables::rows::clauses_of;

/// The clauses of a key that a walk still has to come to, in the row's order.
#[derive(Drop)]
pub struct Chain<'a> {
    index: Index<'a>,
    key: usize,
    at: usize,
    ghost begins: { Begins index.row.now key at },
}

impl<'a> Index<'a> {
    ghost use Rattle.patterns.specs.Index.{with_key};
    ghost use Rattle.patterns.specs.Chain.{to_come};

    /// The clauses of a key, each without its ending zero.
    pub fn chain(&self, key: usize) -> Chain<'a>
        requires { key < KEYS }
        ensures { to_come result ≡ with_key key (clauses self.now.row.now) }
    {
        Chain {
            index: *self,
            key,
            at: usize::from(self.heads[key]),
        }
    }
}

impl<'a> Iterator for Chain<'a> {
    ghost use Rattle.std.specs.Iterator.{YieldsFirstBy, item_count};
    ghost use Rattle.patterns.specs.Chain.{to_come};

    type Item = &'a [i32];

    ghost next_gives = { YieldsFirstBy (λ clause. map literal clause.now) to_come };

    ghost remaining = { item_count to_come };

    fn next(&mut self) -> Option<&'a [i32]> {
        let (_, rest) = self.index.row.split_at_checked(self.at)?;
        let clause = clauses_of(rest).next()?;
        self.at = usize::from(self.index.links[self.at]);
        Some(clause)
    }
}
