// Mapping a grid, in two calls: a check that may refuse, and a making that is empty where it does.
ghost use Rattle.std.specs.Prelude.{◌≡◌, ℕ, ◌*◌, ◌≤◌, length};
ghost use Rattle.matrix.specs.Matrix.{Matrix};
ghost use Rattle.matrix.specs.Shapes.{laid};
ghost use Rattle.grid.specs.Grids.{matrix, order, Over};
ghost use Rattle.mapping.specs.Maps.{map_answer, mapped, map_ref, outer};

use crate::rule::CellRule;
use cells::refusal::Refusal;
use flat::calls::poke;
use grid::grid::Grid;
use matrix::axis::Axis;
use matrix::making::new_check;
use matrix::shape::Order;

// Whether a memory has room for the cells of the source, and is not too long for a grid. SIDE never comes: the source has a
// grid's sides.
pub fn map_check<T: Copy>(source: &Grid<'_, T>, memory: usize) -> Result<(), Refusal>
    ensures answer { result ≡ map_answer memory (matrix source.now) }
{
    let (rows, cols) = source.size();
    new_check(memory, rows, cols)
}

// The source's shape and order over the memory, each cell answered from the cell at its place; empty where `map_check` refuses.
pub fn map_ref<'a, R: CellRule>(
    source: &Grid<'_, R::From>,
    rule: &R,
    memory: &'a mut [R::To],
) -> Grid<'a, R::To>
    ensures effect { matrix result ≡ map_ref R.rule (length memory.old) (matrix source.now) }
    ensures over { Over (order source.now) memory.entry result }
{
    let order = source.order();
    if map_check(source, memory.len()).is_err() {
        return Grid::from_vec_with_order(memory, 0, 0, order);
    }
    answer_cells(source, rule, memory);
    let (rows, cols) = source.size();
    Grid::from_vec_with_order(memory, rows * cols, cols, order)
}

// The answer to each flat cell of the source at its own place, in one pass.
fn answer_cells<R: CellRule>(source: &Grid<'_, R::From>, rule: &R, memory: &mut [R::To])
    requires room { (matrix source.now).rows * (matrix source.now).cols ≤ length memory.old }
    ensures effect { laid (record { rows = (matrix source.now).rows; cols = (matrix source.now).cols; order = order source.now }) memory.new ≡ mapped R.rule (matrix source.now) }
    ensures len { length memory.new ≡ length memory.old }
{
    let axis = outer(source.order());
    let across = source.lines(axis.other());
    for o in 0..source.lines(axis) {
        for i in 0..across {
            let (r, c) = axis.pair(o, i);
            if let Some(x) = source.get(r, c) {
                poke(memory, o * across + i, rule.answer(x));
            }
        }
    }
}

// The axis whose lines lie one after the other.
fn outer(order: Order) -> Axis
    ensures answer { result ≡ outer order }
{
    match order {
        Order::RowMajor => Axis::Row,
        Order::ColumnMajor => Axis::Col,
    }
}
