// The exchange of a call: rows and columns change places in its name and numbers.
ghost use Rattle.std.specs.Prelude.{◌≡◌, map, length, take};
ghost use Rattle.matrix.specs.Matrix.{over};
ghost use Rattle.replay.specs.Laws.{exchange};

use crate::call::Call;
use flat::calls::poke;

impl<T: Copy> Call<T> {
    // kept: rows and columns change places in its numbers too, which no derive says.
    pub fn exchanged(self) -> Call<T>
        ensures answer { result ≡ exchange self }
    {
        match self {
            Call::Put(r, c, x) => Call::Put(c, r, x),
            Call::Insert(axis, i, segment) => Call::Insert(axis.other(), i, segment),
            Call::Remove(axis, i, segment) => Call::Remove(axis.other(), i, segment),
            Call::Transpose => Call::Transpose,
            Call::Flip(axis) => Call::Flip(axis.other()),
            Call::StepBack(segment) => Call::StepBack(segment),
            Call::Publish => Call::Publish,
            Call::Reopen => Call::Reopen,
            Call::Get(r, c) => Call::Get(c, r),
            Call::Size => Call::Size,
            Call::Owed => Call::Owed,
            Call::Kept => Call::Kept,
            Call::Settled => Call::Settled,
        }
    }
}

// The exchange of a list, as much of it as there is room for.
pub(crate) fn exchange_all<T: Copy>(calls: &[Call<T>], exchanged: &mut [Call<T>])
    ensures effect { exchanged.new ≡ over (map exchange (take (length exchanged.old) calls.now)) exchanged.old }
{
    // kept: an index beside the calls: tried by `zip` with `iter_mut`, after which a proof knows nothing of what was written. By the
    // calls, as a loop over the places would pass those that no call is left for.
    // A list is run by a loop like this, in which each call moves the sheet: a closure could not hold it from call to call.
    let n = calls.len().min(exchanged.len());
    for (k, call) in calls[..n].iter().enumerate() {
        poke(exchanged, k, call.exchanged());
    }
}
