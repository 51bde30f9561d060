// What a cell is: a plain value that is copied, has a blank and can be asked whether it is the same as another.
ghost use Rattle.std.specs.Prelude.{◌≡◌, T, pos, true};
ghost use Rattle.cells.specs.declared.kinds.Passage.{Passage};

// A kind of cell. `nothing` is its blank.
pub trait Kind: Copy {
    ghost nothing: { Self };

    fn blank() -> Self
        ensures answer { result ≡ nothing };

    // Yes exactly when both are one value.
    // kept: the derived `==` says only that the parts are equal; that both are one value is promised here.
    fn same(&self, other: &Self) -> bool
        ensures only { T result → self.now ≡ other.now }
        ensures all { self.now ≡ other.now → T result };
}

// Why a crew has no time at a point.
#[derive(Clone, Copy, Debug, PartialEq, Eq)]
pub enum Mark {
    DidNotStart,
    DidNotFinish,
    Disqualified,
    OffCourse,
}

// What a scorer keys at a timing point: nothing yet, a time in thousandths of a second, or a mark.
#[derive(Clone, Copy, Debug, PartialEq, Eq)]
pub enum Passage {
    Blank,
    Time(u32),
    Mark(Mark),
}

// Thousandths of a second added to a crew's time, or taken off it.
#[derive(Clone, Copy, Debug, PartialEq, Eq)]
pub struct Penalty(pub i32);

impl Mark {
    // Yes exactly when both are one mark.
    // kept: by its name, as kinds of cell have it; the body is the derived `==`.
    pub fn same(self, other: Mark) -> bool
        ensures only { T result → self ≡ other }
        ensures all { self ≡ other → T result }
    {
        self == other
    }
}

impl Kind for Passage {
    ghost nothing = { Passage.Blank };

    fn blank() -> Passage {
        Passage::Blank
    }

    fn same(&self, other: &Passage) -> bool {
        self.eq(other)
    }
}

impl Kind for Penalty {
    ghost nothing = { record { 0 = pos 0 } };

    fn blank() -> Penalty {
        Penalty(0)
    }

    // kept: by the derived `==`, as at a passage, it would be `self.eq(other)`; the one count on either side is as plain.
    fn same(&self, other: &Penalty) -> bool {
        self.0 == other.0
    }
}

// The cell of a host's grid.
impl Kind for u8 {
    ghost nothing = { 0 };

    fn blank() -> u8 {
        0
    }

    // kept: the `==` of bytes, by the name that every kind of cell has it.
    fn same(&self, other: &u8) -> bool {
        *self == *other
    }
}

// Yes exactly when both have the same cell, or neither has one.
pub fn same_cells<K: Kind>(a: Option<K>, b: Option<K>) -> bool
    ensures only { result ≡ true → a ≡ b }
    ensures all { a ≡ b → result ≡ true }
{
    match (a, b) {
        (Some(x), Some(y)) => x.same(&y),
        (None, None) => true,
        _ => false,
    }
}
