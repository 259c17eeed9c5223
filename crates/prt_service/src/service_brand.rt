//! What a program calls its front.

use std::marker::Brand;

/// A name, at the level of types, of one front: of the state that was loaded into it, and of whether its tables are the first
/// of their file. It has no values. The call that makes a service picks what it names.
pub trait ServiceBrand {
    ghost use Rattle.std.specs.Prelude.{Bool};
    ghost use Rattle.logbook.specs.Pages.{Book};
    ghost use Rattle.prt_version.specs.State.{State};

    ghost book: { Book };

    ghost base: { State };

    ghost ours_first: { Bool };
}

/// What a call names that picks nothing else.
impl ServiceBrand for Brand {
    ghost use Rattle.std.specs.Prelude.{true};
    ghost use Rattle.prt_version.specs.State.{opening_state};

    ghost book = { record { number = 0; log_name = 0; cells_name = 0 } };

    ghost base = { opening_state };

    ghost ours_first = { true };
}
