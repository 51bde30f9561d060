// The cells that words spell.
ghost use Rattle.listing.specs.Calls.{texts};
ghost use Rattle.scoresheet.specs.Cells.{ReadCells};

use listing::call::SheetKind;
use listing::written::Written;
use listing::wrong::{Failure, Wrong};

// The cells go to the end of those that there are: all of them, or those before the first word that spells none.
pub fn read_cells<T: Written>(
    cells: &mut Vec<T>,
    kind: SheetKind,
    words: &[&str],
) -> Result<(), Failure>
    ensures read { ReadCells T.Written.spells kind (texts words.now) cells.old.items cells.new.items result }
{
    for (at, word) in words.iter().enumerate() {
        let cell = T::read(word).ok_or(Wrong::NoCell(kind, at + 1))?;
        cells.push(cell)?;
    }
    Ok(())
}
