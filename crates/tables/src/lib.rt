// The limits of paper 01, named once, and the sizes of the tables that they give. How the tables show a formula, a node and a
// store is in specs/; this crate has no function.
#![tactic(auto)]

// Variable numbers run from 1 to this. A table by number or by place has one cell more: its first cell is not a variable's.
pub const NUMBERS: usize = 40;

pub const BY_NUMBER: usize = NUMBERS + 1;

// Clauses of a formula, and literals of a clause.
pub const CLAUSES: usize = 255;

pub const LITERALS: usize = 16;

// "Variable numbers run to 1,000, rules to 4,000": a state's own limits are no higher. "flags stay at most 40"
pub const HIGHEST_NUMBERS: usize = 1000;

pub const HIGHEST_BY_NUMBER: usize = HIGHEST_NUMBERS + 1;

pub const HIGHEST_CLAUSES: usize = 4000;

pub const MOST_FREE: usize = 40;

// Learned constraints of each polarity; a constraint has at most one literal of a variable.
pub const CONSTRAINTS: usize = 64;

pub const CONSTRAINT_SIZES: usize = CONSTRAINTS + 1;

// Behind the sizes of the learned clauses stands the record of each: how many clauses stood when it was stored.
pub const LEARNED_CLAUSE_SIZES: usize = CONSTRAINT_SIZES + CONSTRAINTS;

// The tables below are those of a search. Paper 02, wish 8: one program serves books of any limits, so that the tables are of the highest ones,
// whatever a book's own are: a search reads and writes as much of each as its book has use for.

// Room for the codes of two constraints.
pub const CODES_AREA: usize = HIGHEST_NUMBERS * 2;

// Codes of literals inside a search: two for each place. In a shelf each slot has a row's length and its codes; its links have a cell for each
// code, one for the newest row's number, one for the mark below which the cells by code were written, and one for each slot.
pub const CODES: usize = HIGHEST_BY_NUMBER * 2;

// The clauses inside a search: of each how many codes universal reduction leaves, and its codes.
pub const CLAUSE_ROW: usize = LITERALS + 1;

pub const CLAUSE_ROWS: usize = HIGHEST_CLAUSES * CLAUSE_ROW;

// Sets of clauses are rows of words, a multiple of a block; the longest has room for one number more than there are clauses. Of each code there are two
// rows; of each place, and before the first, there is one.
pub const BLOCK: usize = 4;

pub const ROW_WORDS: usize = (HIGHEST_CLAUSES / (bitset::rows::WIDTH * BLOCK) + 1) * BLOCK;

pub const CLAUSE_SETS: usize = CODES * 2 * ROW_WORDS;

pub const SATISFIED: usize = HIGHEST_BY_NUMBER * ROW_WORDS;

pub const CONSTRAINT_CODES: usize = CONSTRAINTS * HIGHEST_BY_NUMBER;

pub const CONSTRAINT_LINKS: usize = CODES + 2 + CONSTRAINTS;

// "any unsigned 32-bit number": the highest ceiling on visits, which a call has where none is given.
pub const HIGHEST_CEILING: u32 = 4294967295;

// Values of a table by number.
// stays (form): a cell of the flat tables, which other programs lend as numbers
pub const OPEN: u8 = 0;

// stays (form): a cell of the flat tables, which other programs lend as numbers
pub const OFF: u8 = 1;

// stays (form): a cell of the flat tables, which other programs lend as numbers
pub const ON: u8 = 2;

// Quantifiers of a table by number.
// stays (form): a cell of the flat tables, which other programs lend as numbers
pub const FREE: u16 = 0;

// stays (form): a cell of the flat tables, which other programs lend as numbers
pub const EXISTS: u16 = 1;

// stays (form): a cell of the flat tables, which other programs lend as numbers
pub const FORALL: u16 = 2;

// In a table by code: no quantifier, after the last variable's place.
// stays (form): the cells of this table are the quantifiers' numbers of the flat tables, which `literal::drops` reads in both; docs/DECISIONS.md has in it "a value of its own after the last place", 3 in the definition `Quantified`
pub const END: u8 = 3;
