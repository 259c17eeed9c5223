//! Laws of what the words of a question ask for, which no program calls.
ghost use Rattle.clap.specs.declared.parser.matches.ArgMatches.{ArgMatches};
ghost use Rattle.prt_args.specs.Asking.{word_of};
ghost use Rattle.prt_args.specs.NoQuestion.{HasTexts, IsNoQuestion};
ghost use Rattle.prt_args.specs.Read.{IsAskedBy};
ghost use Rattle.prt_args.specs.Reaching.{IsAsked};
ghost use Rattle.prt_args.specs.declared.asking.Asked.{Asked};

/// No question is asked by matches by which nothing can be asked, if the parse gave a text to each flag of the subcommand.
pub fn nothing_is_asked()
    ensures { (matches : ArgMatches) (asked : Asked) → HasTexts (word_of asked) matches → IsAskedBy matches asked → IsAsked asked →
        IsNoQuestion (word_of asked) matches → ⊥ }
{}
