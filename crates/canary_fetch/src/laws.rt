//! What holds of all replies.
ghost use Rattle.std.specs.Prelude.{◌≡◌, List, ℕ};
ghost use Rattle.canary_fetch.specs.Replies.{Heard, ReadsReply};

/// Some bytes begin with one reply at most, which ends at one place.
pub fn one_reply()
    ensures reply { (stream : List ℕ) (a b : Heard) (r q : List ℕ) → ReadsReply stream a r
        → ReadsReply stream b q → a ≡ b }
    ensures rest { (stream : List ℕ) (a b : Heard) (r q : List ℕ) → ReadsReply stream a r
        → ReadsReply stream b q → r ≡ q }
{}
