//! What the words of `apply` and `status` ask for: which tables are made, and how a server does.
ghost use Rattle.std.specs.Prelude.{◌≡◌, ◌⊎◌, Bool, IfErr, IfOk, None, Some, codes, option_map, true};
ghost use Rattle.prt_args.specs.Analysis.{IsFlag, IsServerBy};
ghost use Rattle.prt_args.specs.NoQuestion.{IsNoAtomic, IsNoFolder, IsNoTarget};
ghost use Rattle.prt_args.specs.Read.{IsFileBy};
ghost use Rattle.prt_args.specs.Services.{IsAtomicBy, IsStatusFormBy, IsTarget, TakesChanges};
ghost use Rattle.prt_args.specs.declared.server_place.ServerPlace.TheVariants.{Folder};

use crate::asking::{NO_TABLES, Source, named_source};
use crate::fault::BadQuestion;
use crate::following::server_in;
use crate::server_place::ServerPlace;
use crate::serving::place_of;
use crate::task::file_in;
use clap::ArgMatches;

/// What is wrong if tables are to be changed over an address that only tells them.
const NO_ATOMIC: &str =
    "'--atomic <ADDR:PORT>' is required with '--server <ADDR:PORT>', unless '--dry-run' is given";

/// What is wrong with a place that takes atomic scripts.
const BAD_ATOMIC: &str =
    "invalid value for '--atomic <ADDR:PORT>': it is an IPv4 address, `:` and a port of 0 to 65535";

/// What is wrong if the words name a place for atomic scripts that isn't needed.
const ATOMIC_CONFLICT: &str =
    "the argument '--atomic <ADDR:PORT>' can only be used with '--server <ADDR:PORT>'";

/// What is wrong if the server of a status isn't named by the folder of its sockets.
const NO_FOLDER: &str =
    "invalid value for '--server <WHERE>': it is the folder of the server's sockets, with a `/`";

/// What is wrong if a status is to be in two forms.
const FORM_CONFLICT: &str = "the argument '--metrics' cannot be used with '--json'";

/// A server whose tables are to be changed.
#[derive(Clone, Copy)]
pub struct ServerEnds<'a> {
    /// Where it tells its tables.
    pub feed: ServerPlace<'a>,
    /// Where it takes the changes, if they are to be made.
    pub atomic: Option<ServerPlace<'a>>,
}

/// Where tables are that are to be changed.
#[derive(Clone, Copy)]
pub enum Target<'a> {
    /// In the database file at this path.
    Database(&'a str),
    /// At this server.
    Server(ServerEnds<'a>),
}

/// The tables that a script is to make of those that are there.
#[derive(Clone, Copy)]
pub struct ApplyArgs<'a> {
    pub target: Target<'a>,
    /// The path of the script; standard input if there is none.
    pub file: Option<&'a str>,
    /// Whether the changes are only printed.
    pub is_dry_run: bool,
    /// Whether it is shown first which packets the changes send another way.
    pub has_impact: bool,
}

/// In which form the status of a server is written.
#[derive(Clone, Copy)]
pub enum StatusForm {
    /// In lines for a person.
    Lines,
    /// In JSON.
    Json,
    /// In the text format of Prometheus.
    Metrics,
}

/// The question of how a server does.
#[derive(Clone, Copy)]
pub struct StatusArgs<'a> {
    /// The folder of its sockets.
    pub folder: &'a str,
    pub form: StatusForm,
}

/// Finds where the server takes changes that tells its tables at a place.
///
/// # Errors
///
/// It is named for a folder, isn't named for an address though changes are to be made, or is no place.
fn atomic_in<'a>(
    matches: &ArgMatches<'a>,
    feed: ServerPlace<'a>,
    is_dry_run: bool,
) -> Result<Option<ServerPlace<'a>>, BadQuestion>
    ensures atomic { IfOk result (IsAtomicBy matches.now feed.entry) }
    ensures takes { IfOk result (λ atomic. atomic ≡ None → is_dry_run ≡ true) }
    ensures refused { IfErr result (λ bad. IsNoAtomic matches.now feed.entry is_dry_run) }
{
    match (feed, matches.get_str("atomic")) {
        (ServerPlace::Folder(_), None) => Ok(Some(feed)),
        (ServerPlace::Folder(_), Some(_)) => Err(BadQuestion::Words(ATOMIC_CONFLICT)),
        (ServerPlace::Address(_), Some(word)) => match place_of(word) {
            Some(place) => Ok(Some(ServerPlace::Address(place))),
            None => Err(BadQuestion::Words(BAD_ATOMIC)),
        },
        (ServerPlace::Address(_), None) if is_dry_run => Ok(None),
        (ServerPlace::Address(_), None) => Err(BadQuestion::Words(NO_ATOMIC)),
    }
}

/// Finds the tables that are to be changed.
///
/// # Errors
///
/// They aren't named, or are named by two; or a place is none, isn't needed or is missing.
fn target_in<'a>(matches: &ArgMatches<'a>, is_dry_run: bool) -> Result<Target<'a>, BadQuestion>
    ensures target { IfOk result (IsTarget matches.now) }
    ensures takes { IfOk result (λ target. TakesChanges target is_dry_run) }
    ensures refused { IfErr result (λ bad. IsNoTarget matches.now is_dry_run) }
{
    match (named_source(matches)?, matches.get_str("atomic")) {
        (Some(Source::Database(path)), None) => Ok(Target::Database(path)),
        (Some(Source::Database(_)), Some(_)) => Err(BadQuestion::Words(ATOMIC_CONFLICT)),
        (Some(Source::Server(feed)), _) => {
            let atomic = atomic_in(matches, feed, is_dry_run)?;
            Ok(Target::Server(ServerEnds { feed, atomic }))
        }
        (Some(Source::Script(_)) | None, _) => Err(BadQuestion::Words(NO_TABLES)),
    }
}

/// Reads what the matches of `apply` ask for.
///
/// # Errors
///
/// They name no tables, two, a place that is none, or no place that takes the changes.
pub(crate) fn apply_args_of<'a>(matches: &ArgMatches<'a>) -> Result<ApplyArgs<'a>, BadQuestion>
    ensures target { IfOk result (λ applying. IsTarget matches.now applying.target) }
    ensures takes { IfOk result (λ applying. TakesChanges applying.target applying.is_dry_run) }
    ensures file { IfOk result (λ applying. IsFileBy matches.now (option_map (λ path. path.now) applying.file)) }
    ensures dry_run { IfOk result (λ applying. IsFlag matches.now (codes "dry-run") (λ given. given) applying.is_dry_run) }
    ensures impact { IfOk result (λ applying. IsFlag matches.now (codes "impact") (λ given. given) applying.has_impact) }
    ensures refused { IfErr result
        (λ bad. (is_dry_run : Bool) × IsFlag matches.now (codes "dry-run") (λ given. given) is_dry_run × IsNoTarget matches.now is_dry_run) }
{
    let is_dry_run = matches.get_flag("dry-run");
    Ok(ApplyArgs {
        target: target_in(matches, is_dry_run)?,
        file: file_in(matches),
        is_dry_run,
        has_impact: matches.get_flag("impact"),
    })
}

/// Finds in which form a status is to be written.
///
/// # Errors
///
/// In two forms.
fn status_form_in(matches: &ArgMatches<'_>) -> Result<StatusForm, BadQuestion>
    ensures form { IfOk result (λ form. IsStatusFormBy matches.now (Some form)) }
    ensures conflict { IfErr result (λ bad. IsStatusFormBy matches.now None) }
{
    match (matches.get_flag("json"), matches.get_flag("metrics")) {
        (false, false) => Ok(StatusForm::Lines),
        (true, false) => Ok(StatusForm::Json),
        (false, true) => Ok(StatusForm::Metrics),
        (true, true) => Err(BadQuestion::Words(FORM_CONFLICT)),
    }
}

/// Reads what the matches of `status` ask for.
///
/// # Errors
///
/// What is wrong with them.
pub(crate) fn status_args_of<'a>(matches: &ArgMatches<'a>) -> Result<StatusArgs<'a>, BadQuestion>
    ensures server { IfOk result (λ inspecting. IsServerBy matches.now (Folder inspecting.folder)) }
    ensures form { IfOk result (λ inspecting. IsStatusFormBy matches.now (Some inspecting.form)) }
    ensures refused { IfErr result (λ bad. IsNoFolder matches.now ⊎ IsStatusFormBy matches.now None) }
{
    let ServerPlace::Folder(folder) = server_in(matches)? else {
        return Err(BadQuestion::Words(NO_FOLDER));
    };
    let form = status_form_in(matches)?;
    Ok(StatusArgs { folder, form })
}
