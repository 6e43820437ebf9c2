// The order of a text's lines. "In order: `(book 1)`, `(flags ..)`, any `(exists ..)` or `(forall ..)`, rules, `(end)`"
ghost use Rattle.std.specs.Prelude.{◌≡◌};
ghost use Rattle.layout.specs.Opening.{allowed};
ghost use Rattle.opening.specs.Blocks.{block_rank};
ghost use Rattle.opening.specs.Stages.{rank_of, placed};

use refusal::Refusal;

// The forms in their order. As where a text stands: the book's line and the flags' must stand there, and of the others any that is no earlier.
#[derive(Clone, Copy, PartialEq, Eq, PartialOrd, Ord)]
pub enum Stage {
    Book,
    Flags,
    Block,
    Rule,
    End,
}

impl Stage {
    fn allows(self, form: Stage) -> bool
        ensures { result ≡ allowed (rank_of self) (rank_of form) }
    {
        match self {
            Stage::Book | Stage::Flags => form == self,
            Stage::Block | Stage::Rule | Stage::End => self <= form,
        }
    }

    // "1 not in the layout", where the form may not stand.
    pub fn place(self, form: Stage) -> Result<(), Refusal>
        ensures { result ≡ placed (allowed (rank_of self) (rank_of form)) }
    {
        if self.allows(form) {
            Ok(())
        } else {
            Err(Refusal::NotInLayout)
        }
    }
}

// Free variables stand on the flags' line, quantified ones in blocks.
// stays (form): the kind is the number that a line has, and that `declare` writes into the flat table of kinds.
pub fn of_block(kind: u16) -> Stage
    ensures { rank_of result ≡ block_rank kind }
{
    if kind == tables::FREE {
        return Stage::Flags;
    }
    Stage::Block
}
