//! Laws of the cutting of a stream, and of many conversations at once.
ghost use Rattle.std.specs.Prelude.{◌≡◌, ℕ, List, [], ◌++◌};
ghost use Rattle.canary_once.specs.Messages.{HandledAll, AnsweredInOrder, desk_state};
ghost use Rattle.canary_wire.specs.Crowds.{Comes, HasTurn, Goes};
ghost use Rattle.canary_wire.specs.Cut.{Message, Ending, IsCut, SameEnding};
ghost use Rattle.canary_wire.specs.Dispositions.{HttpExchange, IsExchange};

use canary_once::book::Book;
use canary_once::clock::Clock;
use canary_once::laws::running_on;

/// A stream has one list of messages and one end, but if the input ends inside the target of a
/// request or after the 64th header line, it may be cut off or rejected.
pub fn one_cut()
    ensures messages { (bytes : List ℕ) (ms ns : List Message) (e f : Ending)
        → IsCut bytes ms e → IsCut bytes ns f → ms ≡ ns }
    ensures ends { (bytes : List ℕ) (ms ns : List Message) (e f : Ending)
        → IsCut bytes ms e → IsCut bytes ns f → SameEnding bytes ms e f }
{}

/// Clients come, have their turns and go, in any order: each conversation stays in order, by the
/// turns of its own client alone.
pub fn crowds()
    ensures comes { Comes }
    ensures turn { HasTurn }
    ensures goes { Goes }
{}

/// What was held from one clock and book to others, and on from these, was held from the first to
/// the last, and the answers and the contents then are those of the small machine.
pub fn going_on<C: Clock, B: Book>()
    ensures none { (c : C) (b : B)
        → HandledAll IsExchange (desk_state (C.tells c) (B.state b))
        (desk_state (C.tells c) (B.state b)) [] }
    ensures then { (c d e : C) (f g h : B) (xs ys : List HttpExchange)
        → HandledAll IsExchange (desk_state (C.tells c) (B.state f))
        (desk_state (C.tells d) (B.state g)) xs
        → HandledAll IsExchange (desk_state (C.tells d) (B.state g))
        (desk_state (C.tells e) (B.state h)) ys
        → HandledAll IsExchange (desk_state (C.tells c) (B.state f))
        (desk_state (C.tells e) (B.state h)) (xs ++ ys) }
    ensures holds { (c d : C) (f g : B) (xs : List HttpExchange)
        → HandledAll IsExchange (desk_state (C.tells c) (B.state f))
        (desk_state (C.tells d) (B.state g)) xs
        → AnsweredInOrder IsExchange (desk_state (C.tells c) (B.state f))
        (desk_state (C.tells d) (B.state g)) xs }
{
    running_on();
}
