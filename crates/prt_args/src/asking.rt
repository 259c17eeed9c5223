//! What the words of a question ask for: those of `get`, `show`, `explain`, `dump`, `diff`, `follow`, `wait`, `import`,
//! `impact`, `assert`, `unused`, `apply` and `status`.
ghost use Rattle.std.specs.Prelude.{◌≡◌, ◌⊎◌, ◌||◌, ◌++◌, IfErr, IfOk, IfSome, MatchOption, None, Some, codes, is_some, map, option_map, true};
ghost use Rattle.clap.specs.Words.{found_of, rows_of, subcommand_name_of, subcommand_rows_of};
ghost use Rattle.clap.specs.declared.parser.matches.ArgMatches.{ArgMatches};
ghost use Rattle.prt_args.specs.Analysis.{IsFlag, IsMisnamed, IsNamed, IsShownBy, NoneIsNamed, form_of};
ghost use Rattle.prt_args.specs.Asking.{name_of_asked, name_of_verb, name_of_word};
ghost use Rattle.prt_args.specs.Tasks.{asks_question};
ghost use Rattle.prt_args.specs.NoQuestion.{HasNoTables, IsNoQuery, IsNoQuestion, IsNoReach, IsNoVerb, NamesNoTables, OrNoMemory, needs_words};
ghost use Rattle.prt_args.specs.Faults.{IsWordsFault};
ghost use Rattle.prt_args.specs.Invocation.{is_analysis, is_service, usage_error};
ghost use Rattle.prt_args.specs.Read.{IsAskedBy, IsAskingBy, IsFileBy, IsSourceBy, IsVerbBy, labels_of, line_of, spaced};
ghost use Rattle.prt_args.specs.Reaching.{IsAsked, IsReach, IsReachBy};
ghost use Rattle.prt_args.specs.declared.asking.QuestionWord.{QuestionWord};
ghost use Rattle.prt_args.specs.declared.fault.Fault.TheVariants.{Opening};
ghost use Rattle.prt_refusals.specs.declared.refusal.Refusal.TheVariants.{NoMemory};

use crate::analysis::{AssertArgs, ImpactArgs, assert_args_of, impact_args_of, searched_of};
use crate::fault::{BadQuestion, Fault, asking_fault};
use crate::following::{BAD_SERVER, FollowArgs, WaitArgs, follow_args_of, wait_args_of};
use crate::reach::{Reach, reach_of};
use crate::server_place::{ServerPlace, server_place_of};
use crate::service::{ApplyArgs, StatusArgs, apply_args_of, status_args_of};
use crate::task::{file_in, file_of};
use clap::ArgMatches;
use prt_refusals::Refusal;
use std::alloc::{AllocError, Global};

/// What is wrong if no tables are named, or more than one.
pub(crate) const NO_TABLES: &str =
    "one of '--db <PATH>' and '--server <WHERE>' is required, and not both";

/// What is wrong if no tables and no script are named.
const NO_SCRIPT: &str =
    "one of '--db <PATH>', '--server <WHERE>' and a script before the address is required";

/// What is wrong if no packet is named.
const NO_ADDRESS: &str = "a value is required for '<ADDRESS>...'";

/// What is wrong with a dump whose commands replace, and that is no list of commands or calls tables by names.
const REPLACE_CONFLICT: &str = "the argument '--replace' cannot be used with '--json' or '--names'";

/// What is wrong with a difference that is only tested, and whose impact is to be shown.
const IMPACT_CONFLICT: &str = "the argument '--impact' cannot be used with '--check'";

/// The subcommand that says which route a packet gets.
const GET: &str = "get";

/// The subcommand that lists routes or rules.
const SHOW: &str = "show";

/// The subcommand that says why a packet gets its route.
const EXPLAIN: &str = "explain";

/// The subcommand that prints the commands of a database.
const DUMP: &str = "dump";

/// The subcommand that prints what brings the kernel to a database.
const DIFF: &str = "diff";

/// The subcommand that prints what brings the kernel to the tables of a server, step by step.
const FOLLOW: &str = "follow";

/// The subcommand that waits for a server.
const WAIT: &str = "wait";

/// The subcommand that makes a script of what `ip` prints.
const IMPORT: &str = "import";

/// The subcommand that shows which packets get another answer once commands were executed.
const IMPACT: &str = "impact";

/// The subcommand that checks claims of which packets go where.
const ASSERT: &str = "assert";

/// The subcommand that lists rules and routes that no packet gets.
const UNUSED: &str = "unused";

/// The subcommand that makes tables what a script says.
const APPLY: &str = "apply";

/// The subcommand that shows how a server does.
const STATUS: &str = "status";

/// Where the queried tables are.
#[derive(Clone, Copy)]
pub enum Source<'a> {
    /// In the database file at this path.
    Database(&'a str),
    /// At the server whose feed is at this place.
    Server(ServerPlace<'a>),
    /// Those that the script at this path makes of a new database; the one on standard input if there is none.
    Script(Option<&'a str>),
}

/// In which form an answer is written.
#[derive(Clone, Copy)]
pub enum Form {
    /// In lines for a person, or for a script.
    Lines,
    /// In JSON.
    Json,
}

/// How tables are called in an answer.
#[derive(Clone, Copy)]
pub enum Labels {
    /// By their numbers, except for main, local and default.
    Numbers,
    /// By the names that iproute2 has for them, if it has one.
    Names,
}

/// What is queried of tables.
#[derive(Clone, Copy)]
pub enum Verb {
    /// Which route a packet gets.
    Get,
    /// Which routes or rules there are.
    Show,
    /// Why a packet gets its route.
    Explain,
    /// Which commands recreate the tables.
    Dump,
    /// Which commands put the tables in the place of what is there.
    Replace,
}

/// A question to tables, as they are at one moment.
#[derive(Drop)]
pub struct QueryArgs<'a> {
    pub source: Source<'a>,
    pub verb: Verb,
    /// The line of a script that asks it: `route get` or `route show` and the words that were given, or `rule show`. Of a
    /// dump it says nothing.
    pub line: Vec<u8>,
    pub form: Form,
    pub labels: Labels,
}

/// What is shown of what differs.
#[derive(Clone, Copy)]
pub enum Shown {
    /// The lines that make it the same.
    Lines,
    /// As comments which packets these lines send another way, and then the lines.
    Impact,
    /// Whether anything differs, by the status alone.
    Status,
}

/// A question of what differs between what `ip` prints and tables.
#[derive(Drop)]
pub struct DiffArgs<'a> {
    pub source: Source<'a>,
    /// What of the kernel is compared and may be changed.
    pub reach: Reach,
    /// The path of what `ip` printed; standard input if there is none.
    pub file: Option<&'a str>,
    pub shown: Shown,
}

/// A question of which script makes what `ip` printed.
#[derive(Clone, Copy)]
pub struct ImportArgs<'a> {
    /// The path of what `ip` printed; standard input if there is none.
    pub file: Option<&'a str>,
    /// The path of the database over which the script is run; it is printed if there is none.
    pub database: Option<&'a str>,
}

/// What is asked from outside a session.
#[derive(Drop)]
pub enum Asked<'a> {
    /// What tables answer.
    Tables(QueryArgs<'a>),
    /// What differs from tables.
    Diff(DiffArgs<'a>),
    /// What differs from the tables of a server, now and after each of their changes.
    Follow(FollowArgs<'a>),
    /// Whether a server answers.
    Wait(WaitArgs<'a>),
    /// Which script makes what `ip` printed.
    Import(ImportArgs<'a>),
    /// Which packets get another answer once the commands of a file were executed over tables.
    Impact(ImpactArgs<'a>),
    /// Whether the claims of a file hold of tables.
    Assert(AssertArgs<'a>),
    /// Which rules and routes of these tables no packet gets.
    Unused(Source<'a>),
    /// To make tables what a script makes of a new database.
    Apply(ApplyArgs<'a>),
    /// How a server does.
    Status(StatusArgs<'a>),
}

/// A subcommand that asks a question.
#[derive(Clone, Copy)]
pub(crate) enum QuestionWord {
    Tables(Verb),
    Diff,
    Follow,
    Wait,
    Import,
    Impact,
    Assert,
    Unused,
    Apply,
    Status,
}

/// Finds the subcommand of a name, if that is `impact`, `assert` or `unused`.
fn analysis_word(name: &str) -> Option<QuestionWord>
    ensures known { is_some result ≡ is_analysis name.now }
    ensures word { IfSome result (λ word. name.now ≡ name_of_word word) }
{
    match name {
        IMPACT => Some(QuestionWord::Impact),
        ASSERT => Some(QuestionWord::Assert),
        UNUSED => Some(QuestionWord::Unused),
        _ => None,
    }
}

/// Finds the subcommand of a name, if that is `apply` or `status`.
fn service_word(name: &str) -> Option<QuestionWord>
    ensures known { is_some result ≡ is_service name.now }
    ensures word { IfSome result (λ word. name.now ≡ name_of_word word) }
{
    match name {
        APPLY => Some(QuestionWord::Apply),
        STATUS => Some(QuestionWord::Status),
        _ => None,
    }
}

/// Finds the subcommand of a name, if that analyses tables, makes them, or looks after a server.
fn later_word(name: &str) -> Option<QuestionWord>
    ensures known { is_some result ≡ (is_analysis name.now || is_service name.now) }
    ensures word { IfSome result (λ word. name.now ≡ name_of_word word) }
{
    match analysis_word(name) {
        Some(word) => Some(word),
        None => service_word(name),
    }
}

/// Looks up the subcommand of a name, if it asks a question.
fn question_word(name: &str) -> Option<QuestionWord>
    ensures known { is_some result ≡ asks_question (Some name.now) }
    ensures word { IfSome result (λ word. name.now ≡ name_of_word word) }
{
    match name {
        GET => Some(QuestionWord::Tables(Verb::Get)),
        SHOW => Some(QuestionWord::Tables(Verb::Show)),
        EXPLAIN => Some(QuestionWord::Tables(Verb::Explain)),
        DUMP => Some(QuestionWord::Tables(Verb::Dump)),
        DIFF => Some(QuestionWord::Diff),
        FOLLOW => Some(QuestionWord::Follow),
        WAIT => Some(QuestionWord::Wait),
        IMPORT => Some(QuestionWord::Import),
        _ => later_word(name),
    }
}

/// Chooses the words that begin the line of a question, and those of the given ones that follow.
fn opening_of<'b, 'a>(verb: Verb, words: &'b [&'a str]) -> (&'static str, &'b [&'a str])
    ensures { result.0.now ++ spaced (map (λ word. word.now) result.1.now) ≡ line_of verb (map (λ word. word.now) words.now) }
{
    let Verb::Show = verb else {
        return ("route get", words);
    };
    match words.split_first() {
        Some((object, rest)) if *object == "rule" => ("rule show", rest),
        Some((object, rest)) if *object == "route" => ("route show", rest),
        _ => ("route show", words),
    }
}

/// Makes the line that asks a question.
fn line_of(alloc: Global, verb: Verb, words: &[&str]) -> Result<Vec<u8>, AllocError>
    ensures { IfOk result (λ line. line.items ≡ line_of verb (map (λ word. word.now) words.now)) }
{
    let (opening, rest) = opening_of(verb, words);
    let mut line = Vec::from_slice(alloc, opening.as_bytes())?;
    for word in rest {
        line.push(b' ')?;
        line.extend_from_slice(word.as_bytes())?;
    }
    Ok(line)
}

/// Finds where the tables are that the matches name, if they name any.
///
/// # Errors
///
/// They name two, or a place that is none.
pub(crate) fn named_source<'a>(matches: &ArgMatches<'a>) -> Result<Option<Source<'a>>, BadQuestion>
    ensures named { IfOk result (λ named. MatchOption named (NoneIsNamed matches.now) (IsNamed matches.now)) }
    ensures refused { IfErr result (λ bad. IsMisnamed matches.now) }
{
    match (matches.get_str("db"), matches.get_str("server")) {
        (None, None) => Ok(None),
        (Some(path), None) => Ok(Some(Source::Database(path))),
        (None, Some(word)) => match server_place_of(word) {
            Some(place) => Ok(Some(Source::Server(place))),
            None => Err(BadQuestion::Words(BAD_SERVER)),
        },
        (Some(_), Some(_)) => Err(BadQuestion::Words(NO_TABLES)),
    }
}

/// Finds where the tables are that the matches of `diff` name.
///
/// # Errors
///
/// They name none or two, or a place that is none.
fn source_in<'a>(matches: &ArgMatches<'a>) -> Result<Source<'a>, BadQuestion>
    ensures named { IfOk result (IsNamed matches.now) }
    ensures refused { IfErr result (λ bad. NamesNoTables matches.now) }
{
    match named_source(matches)? {
        Some(source) => Ok(source),
        None => Err(BadQuestion::Words(NO_TABLES)),
    }
}

/// Finds where the tables are of a question with these words, and the words that ask it. The first word of an explanation
/// names a script if the matches name no other tables.
///
/// # Errors
///
/// No tables are named, or two, or a place that is none.
fn source_and_words<'b, 'a>(
    verb: Verb,
    matches: &ArgMatches<'a>,
    words: &'b [&'a str],
) -> Result<(Source<'a>, &'b [&'a str]), BadQuestion>
    ensures named { IfOk result (λ named. IsSourceBy matches.now verb (map (λ word. word.now) words.now) named.0 (map (λ word. word.now) named.1.now)) }
    ensures refused { IfErr result (λ bad. HasNoTables verb matches.now (map (λ word. word.now) words.now)) }
{
    match (named_source(matches)?, verb, words.split_first()) {
        (Some(source), _, _) => Ok((source, words)),
        (None, Verb::Explain, Some((file, rest))) => Ok((Source::Script(file_of(file)), rest)),
        (None, Verb::Explain, None) => Err(BadQuestion::Words(NO_SCRIPT)),
        (None, _, _) => Err(BadQuestion::Words(NO_TABLES)),
    }
}

/// Returns whether a question needs words that say of what it is.
fn needs_words(verb: Verb) -> bool
    ensures { result ≡ needs_words verb }
{
    matches!(verb, Verb::Get | Verb::Explain)
}

/// Chooses, for a dump, whether its commands put the tables in the place of what is there. All else stays what it is.
///
/// # Errors
///
/// They do, and the answer is to be in JSON, or to call tables by names.
fn verb_in(verb: Verb, matches: &ArgMatches<'_>) -> Result<Verb, BadQuestion>
    ensures name { IfOk result (λ meant. name_of_verb meant ≡ name_of_verb verb) }
    ensures words { IfOk result (λ meant. needs_words meant ≡ needs_words verb) }
    ensures explains { IfOk result (λ meant. verb ≡ Verb.Explain → meant ≡ Verb.Explain) }
    ensures replaces { IfOk result (IsVerbBy matches.now) }
    ensures refused { IfErr result (λ bad. IsNoVerb verb matches.now) }
{
    let is_dump = matches!(verb, Verb::Dump | Verb::Replace);
    if !is_dump {
        return Ok(verb);
    }
    if !matches.get_flag("replace") {
        return Ok(Verb::Dump);
    }
    if matches.get_flag("json") || matches.get_flag("names") {
        return Err(BadQuestion::Words(REPLACE_CONFLICT));
    }
    Ok(Verb::Replace)
}

/// Finds in which form an answer is to be written.
pub(crate) fn form_in(matches: &ArgMatches<'_>) -> Form
    ensures { IsFlag matches.now (codes "json") form_of result }
{
    if matches.get_flag("json") {
        Form::Json
    } else {
        Form::Lines
    }
}

/// Finds how an answer is to call tables.
fn labels_in(matches: &ArgMatches<'_>) -> Labels
    ensures { IsFlag matches.now (codes "names") labels_of result }
{
    if matches.get_flag("names") {
        Labels::Names
    } else {
        Labels::Numbers
    }
}

/// Reads what the matches of a question to tables ask for.
///
/// # Errors
///
/// What is wrong with them, or that memory is refused.
fn query_args_of<'a>(
    alloc: Global,
    verb: Verb,
    matches: &ArgMatches<'a>,
) -> Result<QueryArgs<'a>, BadQuestion>
    ensures name { IfOk result (λ asking. name_of_verb asking.verb ≡ name_of_verb verb) }
    ensures reads { IfOk result (IsAskingBy matches.now) }
    ensures refused { IfErr result (OrNoMemory (IsNoQuery verb matches.now)) }
{
    let given = matches.get_strs("words").unwrap_or(&[]);
    let (source, words) = source_and_words(verb, matches, given)?;
    if words.is_empty() && needs_words(verb) {
        return Err(BadQuestion::Words(NO_ADDRESS));
    }
    let verb = verb_in(verb, matches)?;
    let line = line_of(alloc, verb, words)?;
    Ok(QueryArgs {
        source,
        verb,
        line,
        form: form_in(matches),
        labels: labels_in(matches),
    })
}

/// Finds what is to be shown of what differs.
///
/// # Errors
///
/// Its impact, and no line.
fn shown_in(matches: &ArgMatches<'_>) -> Result<Shown, BadQuestion>
    ensures shown { IfOk result (λ shown. IsShownBy matches.now (Some shown)) }
    ensures conflict { IfErr result (λ bad. IsShownBy matches.now None) }
{
    match (matches.get_flag("check"), matches.get_flag("impact")) {
        (false, false) => Ok(Shown::Lines),
        (false, true) => Ok(Shown::Impact),
        (true, false) => Ok(Shown::Status),
        (true, true) => Err(BadQuestion::Words(IMPACT_CONFLICT)),
    }
}

/// Reads what the matches of `diff` ask for.
///
/// # Errors
///
/// What is wrong with them, or that memory is refused.
fn diff_args_of<'a>(alloc: Global, matches: &ArgMatches<'a>) -> Result<DiffArgs<'a>, BadQuestion>
    ensures limits { IfOk result (λ diffing. IsReach diffing.reach) }
    ensures source { IfOk result (λ diffing. IsNamed matches.now diffing.source) }
    ensures reach { IfOk result (λ diffing. IsReachBy matches.now diffing.reach) }
    ensures file { IfOk result (λ diffing. IsFileBy matches.now (option_map (λ path. path.now) diffing.file)) }
    ensures shown { IfOk result (λ diffing. IsShownBy matches.now (Some diffing.shown)) }
    ensures refused { IfErr result (OrNoMemory (IsNoQuestion QuestionWord.Diff matches.now)) }
{
    let source = source_in(matches)?;
    let reach = reach_of(alloc, matches)?;
    let shown = shown_in(matches)?;
    Ok(DiffArgs {
        source,
        reach,
        file: file_in(matches),
        shown,
    })
}

/// Reads what the matches of a question's subcommand ask for.
///
/// # Errors
///
/// What is wrong with them, or that memory is refused.
fn asked_of<'a>(
    alloc: Global,
    word: QuestionWord,
    matches: &ArgMatches<'a>,
) -> Result<Asked<'a>, BadQuestion>
    ensures limits { IfOk result IsAsked }
    ensures word { IfOk result (λ asked. name_of_asked asked ≡ name_of_word word) }
    ensures reads { IfOk result (IsAskedBy matches.now) }
    ensures refused { IfErr result (OrNoMemory (IsNoQuestion word matches.now)) }
{
    match word {
        QuestionWord::Tables(verb) => query_args_of(alloc, verb, matches).map(Asked::Tables),
        QuestionWord::Diff => diff_args_of(alloc, matches).map(Asked::Diff),
        QuestionWord::Follow => follow_args_of(alloc, matches).map(Asked::Follow),
        QuestionWord::Wait => wait_args_of(matches).map(Asked::Wait),
        QuestionWord::Import => Ok(Asked::Import(ImportArgs {
            file: file_in(matches),
            database: matches.get_str("db"),
        })),
        QuestionWord::Impact => impact_args_of(matches).map(Asked::Impact),
        QuestionWord::Assert => assert_args_of(matches).map(Asked::Assert),
        QuestionWord::Unused => searched_of(matches).map(Asked::Unused),
        QuestionWord::Apply => apply_args_of(matches).map(Asked::Apply),
        QuestionWord::Status => status_args_of(matches).map(Asked::Status),
    }
}

/// Reads what the matches of a question's subcommand ask for, and says of bad words which fault they are.
///
/// # Errors
///
/// `Words` with what is wrong with them; `Opening` with `NoMemory` if memory is refused.
fn asked_by<'a>(
    alloc: Global,
    word: QuestionWord,
    matches: &ArgMatches<'a>,
) -> Result<Asked<'a>, Fault>
    ensures limits { IfOk result IsAsked }
    ensures word { IfOk result (λ asked. name_of_asked asked ≡ name_of_word word) }
    ensures reads { IfOk result (IsAskedBy matches.now) }
    ensures refused { IfErr result (λ fault. (fault ≡ Opening NoMemory) ⊎ IsNoQuestion word matches.now) }
    ensures fault { IfErr result (IsWordsFault usage_error) }
{
    match asked_of(alloc, word, matches) {
        Ok(asked) => Ok(asked),
        Err(BadQuestion::Words(text)) => Err(asking_fault(alloc, word, text)),
        Err(BadQuestion::NoMemory) => Err(Fault::Opening(Refusal::NoMemory)),
    }
}

/// Reads what the matches of all words ask, if they ask a question.
///
/// # Errors
///
/// `Words` if they name no tables, or two, have no address where one has to be, or don't say how far to reach; `Opening`
/// with `NoMemory` if memory is refused. They ask a question then.
pub(crate) fn asked_in<'a>(
    alloc: Global,
    matches: &ArgMatches<'a>,
) -> Result<Option<Asked<'a>>, Fault>
    ensures asked { IfOk result (λ asked. is_some asked ≡ asks_question (subcommand_name_of matches.now)) }
    ensures word { IfOk result (λ asked. IfSome asked (λ asked. subcommand_name_of matches.now ≡ Some (name_of_asked asked))) }
    ensures reads { IfOk result (λ asked.
        IfSome asked (λ asked. (found : ArgMatches)
        × (subcommand_rows_of matches.now ≡ Some (name_of_asked asked, rows_of (found_of found))) × IsAskedBy found asked)) }
    ensures limits { IfOk result (λ asked. IfSome asked IsAsked) }
    ensures refused { IfErr result
        (λ fault. (fault ≡ Opening NoMemory)
        ⊎ ((word : QuestionWord) × (found : ArgMatches)
        × (subcommand_rows_of matches.now ≡ Some (name_of_word word, rows_of (found_of found))) × IsNoQuestion word found)) }
    ensures fault { IfErr result (λ fault. (asks_question (subcommand_name_of matches.now) ≡ true) × IsWordsFault usage_error fault) }
{
    let Some((name, found)) = matches.subcommand() else {
        return Ok(None);
    };
    match question_word(name) {
        Some(word) => asked_by(alloc, word, found).map(Some),
        None => Ok(None),
    }
}
