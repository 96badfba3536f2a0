// What is asked of the clauses that a refutation starts from.
ghost use Rattle.std.specs.Prelude.{◌≡◌, length, slice_index};
ghost use Rattle.comparisons.specs.Clauses.{Formula, clause_at};

// Clauses are known by their number, from 1, and literals by their place, from 0. Past the ends a clause has no literals,
// and a literal is 0.
pub trait Clauses {
    // What the clauses are: one value, from which every answer is looked up.
    ghost formula: { Self → Formula };

    // The last variable.
    fn variables(&self) -> u32
        ensures { result ≡ (formula self.now).variables };

    // How many clauses there are.
    fn count(&self) -> u32
        ensures { result ≡ length (formula self.now).given };

    // How many literals clause c has.
    fn length(&self, c: u32) -> u32
        ensures { result ≡ length (clause_at (formula self.now).given c) };

    // Literal i of clause c.
    fn literal(&self, c: u32, i: u32) -> u32
        ensures { result ≡ slice_index (clause_at (formula self.now).given c) i };
}
