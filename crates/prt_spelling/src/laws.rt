//! Laws of the definitions, which no program calls.
ghost use Rattle.std.specs.Prelude.{◌≡◌, ◌≤◌, ◌<◌, ◌^◌, ℕ, List, Ok, Some, decimal, true};
ghost use Rattle.prt_addr.specs.Addr.{addr_text, address};
ghost use Rattle.prt_addr.specs.Block.{Block};
ghost use Rattle.prt_addr.specs.Number.{number};
ghost use Rattle.prt_addr.specs.Prefix.{prefix, prefix_text};
ghost use Rattle.prt_addr.specs.Sound.{IsPrefix};
ghost use Rattle.prt_addr.specs.declared.addr.Addr.{Addr};
ghost use Rattle.prt_route.specs.Names.{protocol, scope, table};
ghost use Rattle.prt_rule.specs.declared.rule.Mark.{Mark};
ghost use Rattle.prt_command.specs.Mark.{mark};
ghost use Rattle.prt_command.specs.Reading.{reading};
ghost use Rattle.prt_command.specs.declared.request.Command.{Command};
ghost use Rattle.prt_command.specs.declared.request.Request.TheVariants as requests;
ghost use Rattle.prt_listing.specs.Parts.{mark_text, table_text};
ghost use Rattle.prt_spelling.specs.Fits.{CommandFits};
ghost use Rattle.prt_spelling.specs.Line.{line_by};
ghost use Rattle.prt_spelling.specs.Parts.{given_mark_text, protocol_text, scope_text};
ghost use Rattle.prt_spelling.specs.Spelled.{is_spelled};
ghost use Rattle.prt_spelling.specs.declared.form.NameForm.{NameForm};

/// A value that is written is read back as that value.
pub fn values_read_back()
    ensures number { (n : ℕ) → n < 2 ^ 32 → number (decimal n) ≡ Some n }
    ensures address { (addr : Addr) → addr.0 < 2 ^ 32 → address (addr_text addr) ≡ Some addr }
    ensures prefix { (block : Block) → IsPrefix block → prefix (prefix_text block) ≡ Ok block }
    ensures table { (n : ℕ) → 1 ≤ n → n < 2 ^ 32 → table (table_text n) ≡ Some n }
    ensures protocol { (form : NameForm) (n : ℕ) → n ≤ 255 → protocol (protocol_text form n) ≡ Some n }
    ensures scope { (form : NameForm) (n : ℕ) → n ≤ 255 → scope (scope_text form n) ≡ Some n }
    ensures mark { (m : Mark) → m.mark < 2 ^ 32 → m.mask < 2 ^ 32 → mark (mark_text m) ≡ Ok m }
    ensures given_mark { (m : Mark) → m.mark < 2 ^ 32 → m.mask < 2 ^ 32 → mark (given_mark_text m) ≡ Ok m }
{}

/// Each line of a command that can be expressed asks for the command.
pub fn lines_are_read()
    ensures { (form : NameForm) (command : Command) → CommandFits command → is_spelled command ≡ true →
        reading (line_by form command) ≡ Ok (Some (requests.Command command)) }
{}

/// A line can express each command that a line asks for.
pub fn what_is_read_is_spelled()
    ensures { (line : List ℕ) (command : Command) → reading line ≡ Ok (Some (requests.Command command)) → is_spelled command ≡ true }
{}
