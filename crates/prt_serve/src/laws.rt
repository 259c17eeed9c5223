//! Laws of the definition of a session over a service, which no program calls.
ghost use Rattle.std.specs.Prelude.{◌≡◌, ◌+◌, ◌<◌, ◌^◌, ◌++◌, ℕ, List, None, Ok, Some, length};
ghost use Rattle.prt_command.specs.Reading.{reading};
ghost use Rattle.prt_command.specs.declared.request.Command.{Command};
ghost use Rattle.prt_feed.specs.Feed.{change_lines, feed_text, opening_text};
ghost use Rattle.prt_published.specs.Line.{Line};
ghost use Rattle.prt_listing.specs.QueryText.{lines_text};
ghost use Rattle.prt_serve.specs.Feed.{Piece, commands_in, comment_text, told_lines, without_comments};
ghost use Rattle.prt_serve.specs.Lists.{Shows};
ghost use Rattle.prt_serve.specs.Requests.{Event, service_may, service_turn};
ghost use Rattle.prt_session.specs.Session.{Exchange, Path};
ghost use Rattle.prt_version.specs.State.{State};

/// What the exchanges of a session show, whatever the other threads and the store make of its requests.
pub fn shows()
    ensures { (known0 known : Line) (exchanges : List (Exchange Event)) → Path service_turn service_may known0 exchanges known → Shows known0 known exchanges }
{}

/// A comment of a feed asks for nothing. A client that leaves out comments reads the feed's own text, up to the last number
/// that there is.
pub fn comments_say_nothing()
    ensures beats { reading (comment_text None) ≡ Ok None }
    ensures counts { (count : ℕ) → count < 2 ^ 64 → reading (comment_text (Some count)) ≡ Ok None }
    ensures lines { (number : ℕ) (pieces : List Piece) → number + length pieces < 2 ^ 64 →
        without_comments (told_lines number pieces) ≡ change_lines number (commands_in pieces) }
    ensures text { (state : State) (pieces : List Piece) → state.count + length pieces < 2 ^ 64 →
        opening_text state ++ lines_text (without_comments (told_lines state.count pieces)) ≡ feed_text state (commands_in pieces) }
{}
