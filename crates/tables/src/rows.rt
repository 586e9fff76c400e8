// The clauses of a row, one after another, each without its ending zero. A clause that is not ended is none.
ghost use Rattle.std.specs.Prelude.{◌≡◌, map};
ghost use Rattle.std.specs.Iterator.{YieldsFirstBy, item_count};
ghost use Rattle.tables.specs.Literal.{literal};
ghost use Rattle.tables.specs.Clause.{clauses};

/// What is left of a row that is read clause by clause.
#[derive(Drop)]
pub struct Clauses<'a> {
    rest: &'a [i32],
}

/// The clauses of a row.
pub fn clauses_of(row: &[i32]) -> Clauses<'_>
    ensures { result.rest.now ≡ row.now }
{
    Clauses { rest: row }
}

impl<'a> Iterator for Clauses<'a> {
    type Item = &'a [i32];

    ghost next_gives = { YieldsFirstBy (λ c. map literal c.now) (λ s. clauses s.rest.now) };

    ghost remaining = { item_count (λ s. clauses s.rest.now) };

    #[tactic(auto, using(crate::proofs::EndedClauses::no_clause))]
    fn next(&mut self) -> Option<&'a [i32]> {
        let row = self.rest;
        let end = row.iter().position(|&entry| entry == 0)?;
        self.rest = &row[end + 1..];
        Some(&row[..end])
    }
}
