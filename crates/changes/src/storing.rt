// A change is made of a book.
ghost use Rattle.std.specs.Prelude.{◌≡◌, length};
ghost use Rattle.changes.specs.Changes.{changed};

use super::{Change, Shift};
use adjust::Section;
use rules::Book;

// A section that is finished goes into its place, where there is one, and the place of one that is lifted is cleared. `places` tells callers what the type of a lent book says of its array.
pub fn store(b: &mut Book, change: &Change)
    ensures book { b.new ≡ changed b.old change.now }
    ensures places { length b.old.sections.places ≡ 64 }
{
    b.line = change.line;
    let count = b.sections.count;
    let places = &mut b.sections.places[..];
    match change.shift {
        Shift::Finished(section) if count < places.len() => {
            places[count] = section;
            b.sections.count = count + 1;
        }
        Shift::Lifted if 0 < count && count <= places.len() => {
            places[count - 1] = Section::default();
            b.sections.count = count - 1;
        }
        _ => (),
    }
}
