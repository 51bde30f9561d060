// Making a grid. Whether the numbers make one is asked of `matrix::making` before; a making itself never refuses.
// kept: no `Result` of a making, since by the rules a grid always stands over the memory that is lent, empty where refused.
// kept: `over` on each making, one word for what it gives: it speaks of the memory that was lent, and an invariant of one value.
// kept: sides and an order come one by one, since a `Shape` has invariants, and these numbers are still to be checked.
ghost use Rattle.std.specs.Prelude.{◌≡◌, ℕ, ◌*◌, ◌≤◌, length, take};
ghost use Rattle.matrix.specs.declared.shape.Order.TheVariants.{RowMajor};
ghost use Rattle.matrix.specs.Rules.{from_vec, init};
ghost use Rattle.grid.specs.Grids.{matrix, Over};

use crate::grid::Grid;
use cells::kinds::Kind;
use flat::calls::{fill, first_cells};
use matrix::making::{new_shape, vec_shape};
use matrix::shape::Order;

impl<'a, T: Copy> Grid<'a, T> {
    // The n flat cells at the start of the memory, in lines of `cols` columns; empty where `from_vec_check` refuses.
    // kept: a count beside the lent memory, since what lies past the count is room to grow.
    pub fn from_vec_with_order(
        cells: &'a mut [T],
        n: usize,
        cols: usize,
        order: Order,
    ) -> Grid<'a, T>
        ensures effect { matrix result ≡ from_vec order n cols cells.old }
        ensures over { Over order cells.entry result }
        ensures cells { result.cells.now ≡ take 65536 cells.old }
    {
        let shape = vec_shape(cells.len(), n, cols, order);
        Grid {
            cells: first_cells(cells),
            shape,
        }
    }

    // The same in row-major order.
    // kept: this and `new` differ from the calls with an order by a value, and are the names that users of a grid know.
    pub fn from_vec(cells: &'a mut [T], n: usize, cols: usize) -> Grid<'a, T>
        ensures effect { matrix result ≡ from_vec RowMajor n cols cells.old }
        ensures over { Over RowMajor cells.entry result }
        ensures cells { result.cells.now ≡ take 65536 cells.old }
    {
        Grid::from_vec_with_order(cells, n, cols, Order::RowMajor)
    }

    // One cell in every place of rows × cols; empty where `new_check` refuses.
    // kept: no heap, so the memory is lent; no count stands beside it.
    pub fn init_with_order(
        cells: &'a mut [T],
        rows: usize,
        cols: usize,
        order: Order,
        x: T,
    ) -> Grid<'a, T>
        ensures effect { matrix result ≡ init (length cells.old) rows cols x }
        ensures over { Over order cells.entry result }
    {
        let shape = new_shape(cells.len(), rows, cols, order);
        let first = first_cells(cells);
        fill(first, shape, x);
        Grid {
            cells: first,
            shape,
        }
    }
}

impl<'a, T: Kind> Grid<'a, T> {
    // A blank in every place of rows × cols; empty where `new_check` refuses.
    pub fn new_with_order(cells: &'a mut [T], rows: usize, cols: usize, order: Order) -> Grid<'a, T>
        ensures effect { matrix result ≡ init (length cells.old) rows cols T.Kind.nothing }
        ensures over { Over order cells.entry result }
    {
        Grid::init_with_order(cells, rows, cols, order, T::blank())
    }

    // The same in row-major order.
    pub fn new(cells: &'a mut [T], rows: usize, cols: usize) -> Grid<'a, T>
        ensures effect { matrix result ≡ init (length cells.old) rows cols T.Kind.nothing }
        ensures over { Over RowMajor cells.entry result }
    {
        Grid::new_with_order(cells, rows, cols, Order::RowMajor)
    }
}
