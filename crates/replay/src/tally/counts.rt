// Counting from the answers, call by call.
ghost use Rattle.std.specs.Prelude.{◌≡◌, ℕ, ◌+◌};
ghost use Rattle.replay.specs.Tallies.{aim, granted, told, accepts, backs, settles, capped};

use crate::call::{Answer, Call};
use crate::tally::{Aim, Tally};

impl<T: Copy> Call<T> {
    fn aim(self) -> Aim
        ensures answer { result ≡ aim self }
    {
        match self {
            Call::Put(..) | Call::Insert(..) | Call::Remove(..) | Call::Transpose | Call::Flip(_) =>
                { Aim::Editing }
            Call::StepBack(_) => Aim::Undoing,
            Call::Publish => Aim::Settling,
            Call::Reopen | Call::Get(..) | Call::Size | Call::Owed | Call::Kept | Call::Settled => {
                Aim::Asking
            }
        }
    }
}

impl<T: Copy> Answer<T> {
    // 1 where the call was accepted.
    // kept: this and `told` are numbers, since they are added to the counts, and the definitions speak of the same numbers
    fn granted(self) -> usize
        ensures answer { result ≡ granted self }
    {
        match self {
            Answer::Said(Ok(())) => 1,
            _ => 0,
        }
    }

    // The number that it tells.
    fn told(self) -> usize
        ensures answer { result ≡ told self }
    {
        match self {
            Answer::Count(n) => n,
            _ => 0,
        }
    }
}

impl Tally {
    // Nothing counted.
    pub fn new() -> Tally
        ensures accepted { result.accepted ≡ 0 }
        ensures back { result.back ≡ 0 }
        ensures settled { result.settled ≡ 0 }
    {
        Tally::default()
    }

    // With one more call and its answer.
    pub fn with<T: Copy>(self, call: Call<T>, answer: Answer<T>) -> Tally
        ensures accepted { result.accepted ≡ capped (self.accepted + accepts (aim call) answer) }
        ensures back { result.back ≡ capped (self.back + backs (aim call) answer) }
        ensures settled { result.settled ≡ capped (self.settled + settles (aim call) answer) }
    {
        match call.aim() {
            Aim::Editing => Tally {
                accepted: self.accepted.saturating_add(answer.granted()),
                ..self
            },
            Aim::Undoing => Tally {
                back: self.back.saturating_add(answer.granted()),
                ..self
            },
            Aim::Settling => Tally {
                settled: self.settled.saturating_add(answer.told()),
                ..self
            },
            Aim::Asking => self,
        }
    }
}
