//! Laws of the definitions of a session and of an atomic file, which no program calls.
ghost use Rattle.std.specs.Prelude.{◌≡◌, ◌⊎◌, ◌+◌, ◌*◌, ◌≤◌, ◌∷◌, [], List, Option, length, true};
ghost use Rattle.std.specs.List.{All};
ghost use Rattle.prt_refusals.specs.Refusal.{code_of};
ghost use Rattle.prt_refusals.specs.declared.refusal.Refusal.{Refusal};
ghost use Rattle.prt_session.specs.Atomic.{AllMade, NoneMade, atomic_output, collected};
ghost use Rattle.prt_session.specs.Desk.{Befalls, DeskState, IsNoMemory, Mishap, request_turn, settled};
ghost use Rattle.prt_session.specs.Refusals.{IsClosedExchange, IsListReply, IsWithinLists};
ghost use Rattle.prt_replies.specs.Input.{Input};
ghost use Rattle.prt_session.specs.Session.{Path, replies, session};
ghost use Rattle.prt_refusals.specs.declared.on_refusal.OnRefusal.{OnRefusal};
ghost use Rattle.prt_replies.specs.declared.reply.Reply.TheVariants.{Refused};
ghost use Rattle.prt_version.specs.State.{State};

/// A session ends: it takes at most 1,000,000 lines of 65,537 bytes each, and one byte more.
pub fn session_ends()
    ensures { (desk : DeskState) (input : Input) (mode : OnRefusal) (mishaps : List (Option Mishap)) →
        length input.bytes ≤ length (session request_turn desk input mode mishaps).unread + (1000000 * 65537 + 1) }
{}

/// A run over the plain desk refuses for what a line or its command says, for want of memory, and for the input: never
/// as a publisher, a store or a writer would, so never with `Busy`, `StoreFailed` or `NotPublished`.
pub fn list_replies()
    ensures cause { (state : State) (desk : DeskState) (input : Input) (mode : OnRefusal) (mishaps : List (Option Mishap)) →
        Path request_turn (Befalls IsNoMemory) (settled state) (session request_turn (settled state) input mode mishaps).exchanges desk →
        All IsListReply (replies (session request_turn (settled state) input mode mishaps)) }
    ensures never { (state : State) (desk : DeskState) (input : Input) (mode : OnRefusal) (mishaps : List (Option Mishap)) →
        Path request_turn (Befalls IsNoMemory) (settled state) (session request_turn (settled state) input mode mishaps).exchanges desk →
        All IsWithinLists (replies (session request_turn (settled state) input mode mishaps)) }
{}

/// Over a closed desk each command is refused with `Closed`, and the desk stays as it was.
pub fn closed_replies()
    ensures closed { (desk : DeskState) (input : Input) (mode : OnRefusal) (mishaps : List (Option Mishap)) → desk.closed ≡ true →
        All IsClosedExchange (session request_turn desk input mode mishaps).exchanges }
    ensures same { (desk : DeskState) (input : Input) (mode : OnRefusal) (mishaps : List (Option Mishap)) → desk.closed ≡ true →
        (session request_turn desk input mode mishaps).desk ≡ desk }
{}

/// Of an atomic file all commands are made, stored and published, in the order of their lines and each with a number of its
/// own. Or one refusal is the only reply, and queries are answered as before. What is stored then is what was or, if a
/// commit or a publication failed, perhaps what all of them make. A refusal with a number up to that of `NoMemory` leaves
/// the desk as it was.
pub fn all_or_none()
    ensures made { (desk : DeskState) (input : Input) (mishaps : List (Option Mishap)) (mishap : Option Mishap) →
        AllMade desk (collected input mishaps).desk (atomic_output desk input mishaps mishap)
        ⊎ NoneMade desk (collected input mishaps).desk (atomic_output desk input mishaps mishap) }
    ensures unchanged { (desk : DeskState) (input : Input) (mishaps : List (Option Mishap)) (mishap : Option Mishap) (reason : Refusal) →
        (atomic_output desk input mishaps mishap).replies ≡ Refused reason ∷ [] → code_of reason ≤ 26 → (atomic_output desk input mishaps mishap).desk ≡ desk }
{}
