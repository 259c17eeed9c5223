//! Laws of the definitions, which no program calls.
ghost use Rattle.std.specs.Prelude.{◌≡◌, ◌⊎◌, ◌+◌, ◌≤◌, ◌<◌, ◌^◌, ℕ, List, ◌++◌, Option, Some, length, map};
ghost use Rattle.std.specs.List.{AllByRecursion as Each};
ghost use Rattle.prt_command.specs.declared.request.Command.{Command};
ghost use Rattle.prt_dump.specs.Dump.{dump_lines};
ghost use Rattle.prt_dump.specs.PutBack.{IsPlainState, IsSameButForIds, StateFits};
ghost use Rattle.prt_feed.specs.Feed.{opening_text};
ghost use Rattle.prt_feed.specs.Following.{AreLinesOf, HasLine, IsFollowed, LeadTo};
ghost use Rattle.prt_feed.specs.Reading.{IsOpening, IsReadBack, IsWhyNotRead};
ghost use Rattle.prt_feed.specs.declared.opening.OpeningError.{OpeningError};
ghost use Rattle.prt_feed.specs.declared.opening.OpeningError.TheVariants.{CutOff, NoMemory};
ghost use Rattle.prt_feed.specs.declared.opening.Opening.{Opening};
ghost use Rattle.prt_spelling.specs.Line.{command_line};
ghost use Rattle.prt_version.specs.Accepted.{IsAccepted};
ghost use Rattle.prt_version.specs.Change.{fold};
ghost use Rattle.prt_version.specs.Sound.{IsSound};
ghost use Rattle.prt_version.specs.State.{State, opening_state};
ghost use Rattle.prt_version.specs.declared.limits.TheConstants.{MOST_COMMANDS};

/// The lines of a dump are each accepted over a new database, and make the same routes and, except for ids, the same
/// rules.
pub fn opening_is_read()
    ensures { (state : State) → IsSound state → StateFits state → IsPlainState state → LeadTo opening_state (dump_lines state) state }
{}

/// The lines of accepted commands are each accepted if the same is known except for ids. Then they lead to what is the
/// same as the state after them. The commands may be the first of more: so it holds at each number.
pub fn changes_are_followed()
    ensures { (known state : State) (commands : List Command) → IsSound known → IsSound state → IsSameButForIds known state →
        IsAccepted state commands → Each HasLine commands → known.count + length commands ≤ MOST_COMMANDS →
        LeadTo known (map command_line commands) (fold state commands) }
{}

/// A client that executes a feed's lines over a new database has at each number the server's routes and, except for ids,
/// its rules. The commands may be the first of more.
pub fn feed_is_followed()
    ensures { (state : State) (commands : List Command) → IsSound state → StateFits state → IsPlainState state →
        IsAccepted state commands → Each HasLine commands → length (dump_lines state) + length commands ≤ MOST_COMMANDS →
        IsFollowed state commands }
{}

/// A text has one row of lines.
pub fn text_has_one_reading()
    ensures { (text : List ℕ) (lines others : List (List ℕ)) → AreLinesOf text lines → AreLinesOf text others → lines ≡ others }
{}

/// A client that reads what a feed sent has its opening's number and tables, unless the stream fails or ends, or memory
/// is refused.
pub fn sent_opening_is_read()
    ensures opening { (state : State) (more : List ℕ) (reader : Option (List ℕ)) (opening : Opening) → IsSound state → StateFits state → IsPlainState state →
        opening.number < 2 ^ 64 → IsOpening (Some (opening_text state ++ more)) reader opening → IsReadBack state more reader opening }
    ensures reason { (state : State) (more : List ℕ) (reader : Option (List ℕ)) (reason : OpeningError) → IsSound state → StateFits state → IsPlainState state →
        IsWhyNotRead (Some (opening_text state ++ more)) reader reason → (reason ≡ CutOff) ⊎ (reason ≡ NoMemory) }
{}
