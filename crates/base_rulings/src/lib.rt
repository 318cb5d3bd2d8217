// A ruling is accepted, or refused with a cause: what every call answers, and the number and value that document 01 gives to each cause.
// What reads a part of a file or of an offer answers a `Result` with a cause for its error, so that `?` leaves with the first cause there is.
// It may use no other crate.
#![tactic(auto)]

ghost use Rattle.std.specs.Prelude.{◌≡◌, Some, None, cond};
ghost use Rattle.base_rulings.specs.Answer.{number_of, is_valued, value_of};
ghost use Rattle.base_rulings.specs.Order.{refusal_of};

// A refusal's number, with the action, step, fact or allocation that it speaks of.
// Stays: document 01 names the form, a cause of five cases; the number in each is document 01's own.
#[derive(Clone, Copy, Debug, PartialEq, Eq)]
pub enum Cause {
    Plain(u32),
    Action(u32, u32),
    Step(u32, u32),
    Fact(u32, u32),
    Allocation(u32, u32),
}

// Stays: document 01 names the form, a refused case that holds a cause.
#[derive(Clone, Copy, Debug, PartialEq, Eq)]
pub enum Ruling {
    Accepted,
    Refused(Cause),
}

impl Ruling {
    // 0 where accepted, and the number of the cause where refused.
    pub fn number(self) -> u32
        ensures { result ≡ number_of self }
    {
        match self {
            Ruling::Accepted => 0,
            Ruling::Refused(
                Cause::Plain(n)
                | Cause::Action(n, _)
                | Cause::Step(n, _)
                | Cause::Fact(n, _)
                | Cause::Allocation(n, _),
            ) => n,
        }
    }

    // The action, step, fact or allocation that the cause speaks of, if there is one.
    pub fn value(self) -> Option<u32>
        ensures { result ≡ cond (is_valued self) (Some (value_of self)) None }
    {
        match self {
            Ruling::Accepted => None,
            Ruling::Refused(Cause::Plain(_)) => None,
            Ruling::Refused(
                Cause::Action(_, v)
                | Cause::Step(_, v)
                | Cause::Fact(_, v)
                | Cause::Allocation(_, v),
            ) => Some(v),
        }
    }
}

// The ruling on what was read: its cause, or accepted where there is none.
impl<T: Copy> From<Result<T, Cause>> for Ruling {
    ghost from_gives = { λ r q. q ≡ refusal_of r };

    fn from(read: Result<T, Cause>) -> Ruling {
        match read {
            Ok(_) => Ruling::Accepted,
            Err(cause) => Ruling::Refused(cause),
        }
    }
}
