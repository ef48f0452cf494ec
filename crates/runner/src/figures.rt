// The figures of a book in one lent list of numbers, as far as it has places: ten of the closing and the present run, then four of each point.
ghost use Rattle.std.specs.Prelude.{◌≡◌, ◌≤◌};
ghost use Rattle.std.proofs.lemmas.List.Edits.{sets};
ghost use Rattle.numbers.specs.Numbers.{written};
ghost use Rattle.runner.specs.Figures.{told, head_figures, point_figures, book_figures};

use adjust::{LineFigures, Point, Summary, no_points};
use book::calls;
use rules::{Book, Run};

// Figures into their places from place `at` on, as far as there are places.
fn put(figures: &[i64], list: &mut [i64], at: usize)
    ensures { list.new ≡ sets list.old at figures.now }
{
    let at = at.min(list.len());
    let places = figures.len().min(list.len() - at);
    list[at..at + places].copy_from_slice(&figures[..places]);
}

// The figures of the line of a closed book, and zeros of another.
fn told(b: &Book) -> LineFigures
    ensures { result ≡ told b.now }
{
    calls::figures_of(*b).unwrap_or(LineFigures {
        summary: Summary::default(),
        points: no_points(),
    })
}

fn head_of(s: &Summary, run: &Run, sections: usize) -> [i64; 10]
    requires { (s.now.count ≤ 64) × (run.now.count ≤ 200) × (sections ≤ 64) }
    ensures { result ≡ head_figures s.now run.now sections }
{
    [
        s.closure,
        s.distance,
        s.count as i64,
        s.accidental,
        s.verdict.number() as i64,
        run.count as i64,
        run.height,
        run.sights,
        run.difference,
        sections as i64,
    ]
}

fn put_points(points: &[Point; 65], list: &mut [i64])
    ensures { list.new ≡ sets list.old 10 (point_figures points.now) }
{
    for (k, point) in points.iter().enumerate() {
        let figures = [point.number, point.distance, point.correction, point.height];
        put(&figures, list, 4 * k + 10);
    }
}

// The figures of a book into the lent list, as far as it has places.
pub(crate) fn put_book(b: &Book, list: &mut [i64])
    requires { (b.now.line.present.count ≤ 200) × (b.now.sections.count ≤ 64) }
    ensures { list.new ≡ written (book_figures b.now) list.old }
{
    let figures = told(b);
    let head = head_of(&figures.summary, &b.line.present, b.sections.count);
    put(&head, list, 0);
    put_points(&figures.points, list)
}
