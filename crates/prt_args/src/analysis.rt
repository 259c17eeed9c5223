//! What the words of `impact`, `assert` and `unused` ask for: which tables are analysed, and which file is read beside them.
ghost use Rattle.std.specs.Prelude.{◌≡◌, ◌⊎◌, ◌||◌, IfErr, IfOk, None, codes, is_some, option_map, true};
ghost use Rattle.prt_args.specs.Analysis.{AreNamed, IsFlag, IsMisnamed, IsSearched, exactness_of, form_of, on_refusal_of};
ghost use Rattle.prt_args.specs.Invocation.{file_of};
ghost use Rattle.prt_args.specs.NoQuestion.{HasNoFile, HasScriptToo};

use crate::asking::{Form, Source, form_in, named_source};
use crate::fault::BadQuestion;
use crate::task::{file_in, file_of};
use clap::ArgMatches;
use prt_refusals::OnRefusal;

/// What is wrong if tables are named, and no file.
const NO_FILE: &str = "a value is required for '<FILE>...'";

/// What is wrong if neither tables nor two files are named.
const NO_SCRIPT: &str =
    "one of '--db <PATH>', '--server <WHERE>' and a script before the file is required";

/// What is wrong if tables and more than one file are named.
const ONE_FILE: &str =
    "only one value can be used for '<FILE>...' with '--db <PATH>' or '--server <WHERE>'";

/// What is wrong if more than two files are named.
const TWO_FILES: &str = "at most two values can be used for '<FILE>...': a script and a file";

/// What is wrong if the script and the file are both standard input.
const ONE_INPUT: &str = "only one value of '<FILE>...' can be '-'";

/// What is wrong if the words of `unused` name tables and a script.
const SCRIPT_CONFLICT: &str =
    "the argument '[FILE]' cannot be used with '--db <PATH>' or '--server <WHERE>'";

/// When a packet keeps its answer.
#[derive(Clone, Copy, Debug, PartialEq, Eq)]
pub enum Exactness {
    /// If the same happens to the packet, whichever rule and route decide it.
    Outcomes,
    /// If the same rule decides with the same route.
    Verdicts,
}

/// The question of which packets get another answer once the commands of a file were executed over tables.
#[derive(Clone, Copy)]
pub struct ImpactArgs<'a> {
    pub source: Source<'a>,
    /// The path of the commands; standard input if there is none. Only one of this file and the source is standard input.
    pub file: Option<&'a str>,
    pub exactness: Exactness,
    pub form: Form,
    /// What comes after a refused command.
    pub on_refusal: OnRefusal,
}

/// The question of whether the claims of a file hold of tables.
#[derive(Clone, Copy)]
pub struct AssertArgs<'a> {
    pub source: Source<'a>,
    /// The path of the claims; standard input if there is none. Only one of this file and the source is standard input.
    pub file: Option<&'a str>,
    /// Whether each claim that fails is explained.
    pub is_explained: bool,
}

/// Finds the paths of two operands.
///
/// # Errors
///
/// Both are standard input.
fn two_paths<'a>(
    script: &'a str,
    file: &'a str,
) -> Result<(Option<&'a str>, Option<&'a str>), BadQuestion>
    ensures paths { IfOk result (λ paths.
        (option_map (λ path. path.now) paths.0 ≡ file_of script.entry.now) × (option_map (λ path. path.now) paths.1 ≡ file_of file.entry.now)) }
    ensures one_input { IfOk result (λ paths. (is_some paths.0 || is_some paths.1) ≡ true) }
    ensures refused { IfErr result (λ bad. (file_of script.entry.now ≡ None) × (file_of file.entry.now ≡ None)) }
{
    let script = file_of(script);
    let file = file_of(file);
    if script.is_none() && file.is_none() {
        return Err(BadQuestion::Words(ONE_INPUT));
    }
    Ok((script, file))
}

/// Finds which tables and which file the matches of `impact` or `assert` name.
///
/// # Errors
///
/// They name no tables, two, or a place that is none; or too few or too many files.
fn source_and_file<'a>(
    matches: &ArgMatches<'a>,
) -> Result<(Source<'a>, Option<&'a str>), BadQuestion>
    ensures named { IfOk result (λ named. AreNamed matches.now named.0 (option_map (λ path. path.now) named.1)) }
    ensures refused { IfErr result (λ bad. IsMisnamed matches.now ⊎ HasNoFile matches.now) }
{
    let files = matches.get_strs("words").unwrap_or(&[]);
    match (named_source(matches)?, files) {
        (Some(source), [file]) => Ok((source, file_of(file))),
        (Some(_), []) => Err(BadQuestion::Words(NO_FILE)),
        (Some(_), _) => Err(BadQuestion::Words(ONE_FILE)),
        (None, [script, file]) => {
            let (script, file) = two_paths(script, file)?;
            Ok((Source::Script(script), file))
        }
        (None, [] | [_]) => Err(BadQuestion::Words(NO_SCRIPT)),
        (None, _) => Err(BadQuestion::Words(TWO_FILES)),
    }
}

/// Reads what the matches of `impact` ask for.
///
/// # Errors
///
/// What is wrong with them.
pub(crate) fn impact_args_of<'a>(matches: &ArgMatches<'a>) -> Result<ImpactArgs<'a>, BadQuestion>
    ensures named { IfOk result (λ rehearsing. AreNamed matches.now rehearsing.source (option_map (λ path. path.now) rehearsing.file)) }
    ensures exactness { IfOk result (λ rehearsing. IsFlag matches.now (codes "exact") exactness_of rehearsing.exactness) }
    ensures form { IfOk result (λ rehearsing. IsFlag matches.now (codes "json") form_of rehearsing.form) }
    ensures on_refusal { IfOk result (λ rehearsing. IsFlag matches.now (codes "force") on_refusal_of rehearsing.on_refusal) }
    ensures refused { IfErr result (λ bad. IsMisnamed matches.now ⊎ HasNoFile matches.now) }
{
    let (source, file) = source_and_file(matches)?;
    let exactness = if matches.get_flag("exact") {
        Exactness::Verdicts
    } else {
        Exactness::Outcomes
    };
    let on_refusal = if matches.get_flag("force") {
        OnRefusal::GoOn
    } else {
        OnRefusal::Stop
    };
    Ok(ImpactArgs {
        source,
        file,
        exactness,
        form: form_in(matches),
        on_refusal,
    })
}

/// Reads what the matches of `assert` ask for.
///
/// # Errors
///
/// What is wrong with them.
pub(crate) fn assert_args_of<'a>(matches: &ArgMatches<'a>) -> Result<AssertArgs<'a>, BadQuestion>
    ensures named { IfOk result (λ asserting. AreNamed matches.now asserting.source (option_map (λ path. path.now) asserting.file)) }
    ensures explained { IfOk result (λ asserting. IsFlag matches.now (codes "explain") (λ given. given) asserting.is_explained) }
    ensures refused { IfErr result (λ bad. IsMisnamed matches.now ⊎ HasNoFile matches.now) }
{
    let (source, file) = source_and_file(matches)?;
    Ok(AssertArgs {
        source,
        file,
        is_explained: matches.get_flag("explain"),
    })
}

/// Finds which tables the matches of `unused` name: those of `--db` or `--server`, or else those that a script makes.
///
/// # Errors
///
/// They name two, a place that is none, or a script beside other tables.
pub(crate) fn searched_of<'a>(matches: &ArgMatches<'a>) -> Result<Source<'a>, BadQuestion>
    ensures searched { IfOk result (IsSearched matches.now) }
    ensures refused { IfErr result (λ bad. IsMisnamed matches.now ⊎ HasScriptToo matches.now) }
{
    match (named_source(matches)?, matches.get_str("file")) {
        (None, _) => Ok(Source::Script(file_in(matches))),
        (Some(source), None) => Ok(source),
        (Some(_), Some(_)) => Err(BadQuestion::Words(SCRIPT_CONFLICT)),
    }
}
