use prt_command::Request;
use prt_replies::Reply;

/// Executes the requests of a session.
///
/// What it may represent, and what may befall a request, are types of its own. A desk represents the states of its
/// tables, and an executor that shares them with others represents what it knows of them.
pub trait Executor {
    ghost use Rattle.std.specs.Prelude.{◌≡◌, Option};
    ghost use Rattle.prt_command.specs.Storable.{IsStorableRequest};
    ghost use Rattle.prt_command.specs.declared.request.Request.{Request};
    ghost use Rattle.prt_session.specs.Preorder.{IsPreorder};
    ghost use Rattle.prt_session.specs.Session.{Turn};
    ghost use Rattle.prt_session.specs.Stands.{Explained, StandsForSome};
    ghost use Rattle.prt_session.specs.Steps.{Gives};

    /// What it may represent.
    ghost Desk: { Type 0 };

    /// What may befall a request.
    ghost Mishap: { Type 0 };

    /// The reply to a request, and what it represents after it.
    ghost turn: { Desk → Request → Option Mishap → Turn Desk };

    /// Which of the mishaps may befall a request there.
    ghost may: { Desk → Request → Option Mishap → Type 0 };

    /// Whether it may represent this.
    ghost stands: { Self → Desk → Type 0 };

    /// What every request leaves as it was.
    ghost keeps: { Self → Self → Type 0 };

    /// Whether it can take requests.
    ghost fits: { Self → Type 0 };

    /// Executes a request, whose routes and rules may be stored, and returns the reply to it.
    fn execute(&mut self, request: &Request) -> Reply
        requires fits { fits self.old }
        requires storable { IsStorableRequest request.now }
        ensures fits { fits self.new }
        ensures turn { Explained stands self.old self.new (λ before after. Gives turn may before request.now result after) }
        ensures left { StandsForSome stands self.old → StandsForSome stands self.new }
        ensures keeps { keeps self.old self.new };

    /// Takes note of a line that asks for nothing of it, or of what comes in place of a line: a blank line, a refused one,
    /// one that a fault cuts off, or one more than there may be. Comes before the reply to that is written.
    fn pass(&mut self)
        requires { fits self.old }
        ensures fits { fits self.new }
        ensures same { Explained stands self.old self.new (λ before after. after ≡ before) }
        ensures left { StandsForSome stands self.old → StandsForSome stands self.new }
        ensures keeps { keeps self.old self.new };

    /// This holds over any number of requests.
    ghost keeps_over_all: { IsPreorder keeps };
}
