// Definitions and theorems: what holds of a text that is opened onto two lent tables, whether they are long enough for its limits or not. And how long tables are
// that hold a state under any limits.
#![tactic(auto)]

// The cells of a state under the highest limits: the limits, the prefix, the sizes of the clauses, of the learned clauses with their records, and of the cubes.
pub const CELLS: usize = 2
    + tables::HIGHEST_BY_NUMBER * 3
    + tables::HIGHEST_CLAUSES
    + 1
    + tables::LEARNED_CLAUSE_SIZES
    + tables::CONSTRAINT_SIZES;

// The literals of its clauses, and of the learned constraints of both polarities.
pub const LITERALS: usize = tables::HIGHEST_CLAUSES * tables::LITERALS
    + tables::CONSTRAINTS * tables::HIGHEST_NUMBERS * 2;
