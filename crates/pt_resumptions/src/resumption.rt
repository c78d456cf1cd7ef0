ghost use Rattle.std.specs.Prelude.{◌≡◌};
ghost use Rattle.pt_resumptions.specs.Resumptions.{resumption};

use pt_gen::{GenState, How};
use pt_heap::Value;

/// Why a generator doesn't go on.
#[derive(Clone, Copy)]
pub enum Obstacle {
    Running,
    /// A value other than None was sent to one that hasn't started.
    Fresh,
    Finished,
}

/// What comes of having a generator go on (Language Reference 6.2.9.1).
#[derive(Clone, Copy)]
pub enum Resumption {
    /// Its block starts.
    Starts,
    /// It goes on with this value, where it gave one on.
    GoesOn(Value),
    /// This exception is thrown to where it gave a value on.
    Throws(Value),
    /// A GeneratorExit is thrown there.
    Closes,
    /// It is finished, and this exception arises where it was thrown.
    ThrowsBack(Value),
    /// It is finished, and nothing is left to be closed.
    NothingToClose,
    Cannot(Obstacle),
}

/// What comes of having a generator go on that is in this state.
pub fn resumption_of(state: GenState, how: How) -> Resumption
    ensures { result ≡ resumption state how }
{
    match state {
        GenState::Fresh => match how {
            How::Throw(exception) => Resumption::ThrowsBack(exception),
            How::Close => Resumption::NothingToClose,
            How::Next | How::Send(_) => {
                if how.sends_value() {
                    Resumption::Cannot(Obstacle::Fresh)
                } else {
                    Resumption::Starts
                }
            }
        },
        GenState::Suspended => match how {
            How::Next => Resumption::GoesOn(Value::None),
            How::Send(value) => Resumption::GoesOn(value),
            How::Throw(exception) => Resumption::Throws(exception),
            How::Close => Resumption::Closes,
        },
        GenState::Running => Resumption::Cannot(Obstacle::Running),
        GenState::Finished => match how {
            How::Throw(exception) => Resumption::ThrowsBack(exception),
            How::Close => Resumption::NothingToClose,
            How::Next | How::Send(_) => Resumption::Cannot(Obstacle::Finished),
        },
    }
}
