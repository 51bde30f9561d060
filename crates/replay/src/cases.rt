// The worked cases: the call stands for the theorem in its contract, so that the check asks for its proof.
ghost use Rattle.std.specs.Prelude.{◌≡◌};
ghost use Rattle.replay.specs.Cases.{Cases};

use matrix::laws;

// The small sheets worked by hand come out as the definitions say, those of boards among them; the answer is how many there
// are.
pub fn cases_hold() -> u8
    ensures answer { result ≡ 17 }
    ensures cases { Cases }
{
    laws::cases_hold() + 3
}
