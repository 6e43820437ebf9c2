// Literals: the number of a literal's variable, and what the tables by number say of it; and beside them what any list of cells needs: a cell read or put where it may not be there,
// and how many items are left where the last ones are dropped.
#![tactic(auto)]

ghost use Rattle.std.specs.Prelude.{◌≡◌, ◌-◌, ◌≤◌, ◌<◌, ℕ, true, false, length, get_or, set};
ghost use Rattle.qbf.specs.Formula.{Quantifier, Prefix, number_of, place};
ghost use Rattle.qbf.specs.Learning.{dropped};
ghost use Rattle.tables.specs.Codes.{wanted};
ghost use Rattle.tables.specs.Views.{Places, negated, quantifier_code, status};

// "Number, place and quantification level are separate counters and never stand in for one another."
#[derive(Clone, Copy)]
pub struct Number(pub usize);

#[derive(Clone, Copy)]
pub struct Place(pub usize);

#[derive(Clone, Copy)]
pub struct Level(pub usize);

// The tables by number that are lent together: the place and the quantifier of each number, and its value at a node.
#[derive(Clone, Copy)]
pub struct ByNumber<'a> {
    pub places: &'a [u16],
    pub kinds: &'a [u16],
    pub values: &'a [u8],
}

// What a literal is at a node; an open one is tables::OPEN.
// stays (C): the values by number that other programs lend are these numbers, and a literal's status is one of them or the other
pub const FALSE: u8 = tables::OFF;

// stays (C): the values by number that other programs lend are these numbers, as above
pub const TRUE: u8 = tables::ON;

// The magnitude of -32768 is a number too, and no literal is negated for it: the number is refused before any negation.
pub fn number_of(lit: i16) -> Number
    ensures { result.0 ≡ number_of lit }
{
    Number(lit.unsigned_abs() as usize)
}

// Off and on exchanged.
// stays (no plainer): the values are numbers of the lent tables, and the definition `negated` is this table; as one term it would be `(3 - value) % 3`, which names none of the three
pub fn negated(value: u8) -> u8
    ensures { result ≡ negated value }
{
    match value {
        tables::OPEN => tables::OPEN,
        tables::OFF => tables::ON,
        _ => tables::OFF,
    }
}

// The status of a literal that has the truth value of the polarity: true in a cube, false in a clause.
// stays (no plainer): the bool is the polarity of the definitions, and the definition `wanted` is these two cases
pub fn wanted(cube: bool) -> u8
    ensures { result ≡ wanted cube }
{
    if cube { TRUE } else { FALSE }
}

// Whether reduction drops a literal whose variable has the quantifier of this code.
// stays (no plainer): the bool is the polarity of the definitions, and the definition `dropped` is these two cases, of a cube exists and of a clause forall
pub fn drops(kind: u16, cube: bool) -> bool
    ensures { (κ : Quantifier) → kind ≡ quantifier_code κ → result ≡ dropped cube κ }
{
    if cube {
        kind == tables::EXISTS
    } else {
        kind == tables::FORALL
    }
}

// A cell of a table, `blank` past its end.
pub fn cell_or<T: Copy>(table: &[T], i: usize, blank: T) -> T
    ensures { result ≡ get_or table.now i blank }
{
    table.get(i).copied().unwrap_or(blank)
}

// .. 0 past its end.
pub fn byte_at(table: &[u8], i: usize) -> u8
    ensures { result ≡ get_or table.now i 0 }
{
    cell_or(table, i, 0)
}

pub fn cell_at(table: &[u16], i: usize) -> u16
    ensures { result ≡ get_or table.now i 0 }
{
    cell_or(table, i, 0)
}

// A cell that is there is written.
pub fn put<T: Copy>(cells: &mut [T], i: usize, value: T)
    ensures { cells.new ≡ set cells.old i value }
{
    if i < cells.len() {
        cells[i] = value;
    }
}

// How many items are left when those at the end are dropped for which the test holds.
pub fn kept_len<T: Copy, F: Fn(T) -> bool>(items: &[T], drops: F) -> usize
    requires { F.IsAlwaysCallable drops }
    ensures within { result ≤ length items.now }
    ensures dropped { (i : ℕ) (d : T) → result ≤ i → i < length items.now → F.post drops (get_or items.now i d) true }
    ensures kept { (d : T) → 0 < result → F.post drops (get_or items.now (result - 1) d) false }
{
    items
        .iter()
        .rposition(|item| !drops(*item))
        .map_or(0, |last| last + 1)
}

// Whether a literal is open, false or true. A number past the table is open.
pub fn status_of(values: &[u8], lit: i16) -> u8
    ensures { result ≡ status values.now lit }
{
    let value = byte_at(values, number_of(lit).0);
    if lit < 0 { negated(value) } else { value }
}

// 0 where the number is not declared.
// stays (no plainer): the definition `place` is 0 for a number that is not declared, below every place, and the places that callers compare are those; an Option would be turned back into 0 at each
pub fn place_of(places: &[u16], n: Number) -> Place
    ensures { result.0 ≡ get_or places.now n.0 0 }
{
    Place(cell_at(places, n.0) as usize)
}

// A number that is not declared counts as free.
pub fn kind_of(kinds: &[u16], n: Number) -> u16
    ensures { result ≡ get_or kinds.now n.0 0 }
{
    cell_at(kinds, n.0)
}

// The place of a literal's variable, 0 where it is not declared.
// stays (no plainer): the definition `place` of a literal whose variable is not declared is 0, as above
pub fn literal_place(places: &[u16], lit: i16) -> usize
    ensures { (result ≡ get_or places.now (number_of lit) 0)
        × ((D : Prefix) → Places D places.now → result ≡ place D lit) }
{
    place_of(places, number_of(lit)).0
}

// The quantifier of a literal's variable.
pub fn literal_kind(kinds: &[u16], lit: i16) -> u16
    ensures { result ≡ get_or kinds.now (number_of lit) 0 }
{
    kind_of(kinds, number_of(lit))
}
