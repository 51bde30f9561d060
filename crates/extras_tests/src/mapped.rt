// Grids mapped, by the two rules that there are and by some of the tests' own.
ghost use Rattle.std.specs.Prelude.{◌+◌, ◌*◌, nat_lt};

use crate::expect::equal;
use cells::kinds::{Mark, Passage, Penalty};
use cells::refusal::Refusal;
use grid::grid::Grid;
use mapping::map::{map_check, map_ref};
use mapping::rule::{CellRule, Hundredths, Negated};
use matrix::shape::Order;
use std::alloc::AllocError;

// A byte as a larger number, counted from 1000.
struct Counted;

impl CellRule for Counted {
    type From = u8;

    type To = u32;

    ghost rule = { λ x. x + 1000 };

    fn answer(&self, x: u8) -> u32 {
        u32::from(x) + 1000
    }
}

// The two rules of the original's example, which it writes as closures.
struct Doubled;

impl CellRule for Doubled {
    type From = u8;

    type To = u32;

    ghost rule = { λ x. x * 2 };

    fn answer(&self, x: u8) -> u32 {
        u32::from(x) * 2
    }
}

struct AboveTwo;

impl CellRule for AboveTwo {
    type From = u8;

    type To = bool;

    ghost rule = { λ x. nat_lt 2 x };

    fn answer(&self, x: u8) -> bool {
        2 < x
    }
}

// The example of `map_ref` in the original's documentation, which is that of `map` too.
#[test]
fn documented(rt: HostRuntime) {
    let mut memory = [1u8, 2, 3, 4];
    let source = Grid::from_vec(&mut memory, 4, 2);
    let mut others = [7u32; 4];
    let (cells, n) = map_ref(&source, &Doubled, &mut others).into_vec();
    equal(&rt, n, 4);
    assert!(rt; cells.starts_with(&[2, 4, 6, 8]));
    let mut others = [false; 4];
    let answers = map_ref(&source, &AboveTwo, &mut others);
    equal(&rt, answers.size(), (2, 2));
    let (cells, _) = answers.into_vec();
    assert!(rt; cells.starts_with(&[false, false, true, true]));
}

#[test]
fn hundredths(rt: HostRuntime) {
    equal(
        &rt,
        Hundredths.answer(Passage::Time(12345)),
        Passage::Time(1234),
    );
    equal(&rt, Hundredths.answer(Passage::Time(9)), Passage::Time(0));
    equal(&rt, Hundredths.answer(Passage::Time(10)), Passage::Time(1));
    equal(
        &rt,
        Hundredths.answer(Passage::Time(u32::MAX)),
        Passage::Time(429496729),
    );
    equal(&rt, Hundredths.answer(Passage::Blank), Passage::Blank);
    for mark in [
        Mark::DidNotStart,
        Mark::DidNotFinish,
        Mark::Disqualified,
        Mark::OffCourse,
    ] {
        equal(
            &rt,
            Hundredths.answer(Passage::Mark(mark)),
            Passage::Mark(mark),
        );
    }
}

#[test]
fn negated(rt: HostRuntime) {
    equal(&rt, Negated.answer(Penalty(0)), Penalty(0));
    equal(&rt, Negated.answer(Penalty(1500)), Penalty(-1500));
    equal(&rt, Negated.answer(Penalty(-1)), Penalty(1));
    equal(&rt, Negated.answer(Penalty(i32::MAX)), Penalty(-2147483647));
    equal(&rt, Negated.answer(Penalty(-2147483647)), Penalty(i32::MAX));
    equal(&rt, Negated.answer(Penalty(i32::MIN)), Penalty(i32::MAX));
}

// 1 2 3 / 4 5 6 in both orders, into another kind of cell; flat cell from flat cell, and the source as it was.
#[test]
fn in_its_place(rt: HostRuntime) {
    for order in [Order::RowMajor, Order::ColumnMajor] {
        let mut memory = [1u8, 2, 3, 4, 5, 6, 9];
        let mut others = [7u32; 8];
        let source = Grid::from_vec_with_order(&mut memory, 6, 3, order);
        equal(&rt, map_check(&source, 8), Ok(()));
        let answers = map_ref(&source, &Counted, &mut others);
        equal(&rt, answers.size(), (2, 3));
        equal(&rt, answers.order(), order);
        equal(&rt, answers.limits().most, 8);
        for r in 0..2 {
            for c in 0..3 {
                let x = source.get(r, c).map(u32::from);
                equal(&rt, answers.get(r, c).map(|y| y.wrapping_sub(1000)), x);
            }
        }
        let (cells, n) = answers.into_vec();
        equal(&rt, n, 6);
        assert!(rt; cells.starts_with(&[1001, 1002, 1003, 1004, 1005, 1006]));
        let (cells, n) = source.into_vec();
        equal(&rt, n, 6);
        assert!(rt; cells.starts_with(&[1, 2, 3, 4, 5, 6, 9]));
    }
}

// A column of each kind of passage, and one of penalties.
#[test]
fn columns(rt: HostRuntime) {
    let mut memory = [
        Passage::Time(61999),
        Passage::Blank,
        Passage::Mark(Mark::OffCourse),
    ];
    let mut others = [Passage::Time(7); 3];
    let source = Grid::from_vec(&mut memory, 3, 1);
    let answers = map_ref(&source, &Hundredths, &mut others);
    equal(&rt, answers.size(), (3, 1));
    equal(&rt, answers.get(0, 0), Some(Passage::Time(6199)));
    equal(&rt, answers.get(1, 0), Some(Passage::Blank));
    equal(&rt, answers.get(2, 0), Some(Passage::Mark(Mark::OffCourse)));
    let mut memory = [Penalty(i32::MIN), Penalty(250)];
    let mut others = [Penalty(7); 2];
    let source = Grid::from_vec(&mut memory, 2, 1);
    let answers = map_ref(&source, &Negated, &mut others);
    equal(&rt, answers.get(0, 0), Some(Penalty(i32::MAX)));
    equal(&rt, answers.get(1, 0), Some(Penalty(-250)));
}

// A cell too few, and no cells at all.
#[test]
fn short_or_none(rt: HostRuntime) {
    let mut memory = [1u8, 2, 3, 4, 5, 6];
    let mut others = [7u32; 5];
    let source = Grid::from_vec_with_order(&mut memory, 6, 3, Order::ColumnMajor);
    equal(&rt, map_check(&source, 5), Err(Refusal::Full));
    equal(&rt, map_check(&source, 6), Ok(()));
    let answers = map_ref(&source, &Counted, &mut others);
    assert!(rt; answers.is_empty());
    equal(&rt, answers.order(), Order::ColumnMajor);
    equal(&rt, answers.limits().most, 5);
    let mut memory = [1u8, 2];
    let mut others = [7u32; 0];
    let source = Grid::from_vec(&mut memory, 0, 3);
    equal(&rt, map_check(&source, 0), Ok(()));
    equal(&rt, map_check(&source, 65537), Err(Refusal::Memory));
    let answers = map_ref(&source, &Counted, &mut others);
    equal(&rt, answers.size(), (0, 0));
}

// Other memory that is too long, which is said first.
#[test]
fn too_long(rt: HostRuntime) -> Result<(), AllocError> {
    let mut memory = [1u8, 2, 3, 4, 5, 6];
    let mut others = vec![in rt.alloc(); 7u32; 65537]?;
    let source = Grid::from_vec(&mut memory, 6, 3);
    equal(&rt, map_check(&source, 65537), Err(Refusal::Memory));
    let answers = map_ref(&source, &Counted, &mut others);
    assert!(rt; answers.is_empty());
    equal(&rt, answers.limits().most, 65536);
    Ok(())
}

// The largest grid there is.
#[test]
fn largest(rt: HostRuntime) -> Result<(), AllocError> {
    let mut memory = vec![in rt.alloc(); 5u8; 65536]?;
    let mut others = vec![in rt.alloc(); 7u32; 65536]?;
    let source = Grid::from_vec(&mut memory, 65536, 256);
    equal(&rt, map_check(&source, 65535), Err(Refusal::Full));
    let answers = map_ref(&source, &Counted, &mut others);
    equal(&rt, answers.size(), (256, 256));
    equal(&rt, answers.get(255, 255), Some(1005));
    Ok(())
}
