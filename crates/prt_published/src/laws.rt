//! Laws of the definitions, which no program calls.
ghost use Rattle.std.specs.Prelude.{◌≡◌, ◌+◌, List, length};
ghost use Rattle.prt_command.specs.declared.request.Command.{Command};
ghost use Rattle.prt_version.specs.Accepted.{IsAccepted};
ghost use Rattle.prt_published.specs.Line.{Line, grown_by, line_state};

/// The number of a published version is the loaded number and that of the commands since; commands more add theirs.
pub fn published_number()
    ensures number { (line : Line) → IsAccepted line.base line.list → (line_state line).count ≡ line.base.count + length line.list }
    ensures next { (line : Line) (commands : List Command) → IsAccepted line.base line.list → IsAccepted (line_state line) commands →
        (line_state (grown_by line commands)).count ≡ line.base.count + length line.list + length commands }
{}
