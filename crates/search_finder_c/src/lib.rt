// The finder of `search_finder` as a static library: the export calls the function of its name, and answers a number.
#![tactic(auto)]

ghost use Rattle.qbf.specs.Formula.{paper};
ghost use Rattle.tables.specs.Views.{Standing};
ghost use Rattle.lowest_dead.specs.Found.{FoundLowest};
ghost use Rattle.search_finder.specs.Lent.{Tells};

use literal::{ByNumber, cell_at};

// The index of the clause that step 1 takes; the count of the clauses where none is dead, and where they do not lie within their table.
// stays (C): a C function answers a number; the function that it calls answers an Option
#[unsafe(no_mangle)]
pub extern "C" fn search_finder_lowest_dead<'a>(
    clauses: &'a [i16],
    sizes: &'a [u16],
    places: &'a [u16],
    kinds: &'a [u16],
    values: &'a [u8],
) -> usize
    ensures { Standing paper.literals clauses.now sizes.now
        → FoundLowest
        clauses.now
        sizes.now
        places.now
        kinds.now
        values.now
        result }
{
    let shown = ByNumber {
        places,
        kinds,
        values,
    };
    let count = cell_at(sizes, 0) as usize;
    search_finder::search_finder_lowest_dead(clauses, sizes, shown).unwrap_or(count)
}
