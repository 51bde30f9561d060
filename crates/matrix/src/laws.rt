// Theorems: each call stands for the one in its contract, so that the check asks for its proof.
ghost use Rattle.std.specs.Prelude.{◌≡◌, Some};
ghost use Rattle.matrix.specs.Laws.{Turns, Undone, Mirrors, Shown};
ghost use Rattle.matrix.specs.Cases.{Cases};

// The laws hold at every kind of cell.
pub fn laws_hold<T: Copy>(x: T) -> Option<T>
    ensures answer { result ≡ Some x }
    ensures turns { Turns T }
    ensures undone { Undone T }
    ensures mirrors { Mirrors T }
    ensures shown { Shown T }
{
    Some(x)
}

// The small sheets worked by hand come out as the definitions say; the answer is how many there are.
pub fn cases_hold() -> u8
    ensures answer { result ≡ 14 }
    ensures cases { Cases }
{
    14
}
