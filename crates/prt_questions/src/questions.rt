//! What is asked from outside a session.
ghost use Rattle.std.specs.Prelude.{◌≡◌, ◌⊎◌};
ghost use Rattle.prt_questions.specs.Done.{IsDone, IsDoneAtMost, IsFound, IsFoundClosed, IsFoundUnreadable};
ghost use Rattle.prt_questions.specs.Sources.{sources_of};

use crate::applying::apply;
use crate::asking::{REFUSED, ask};
use crate::asserting::{UNREADABLE, assert_claims};
use crate::following::{follow_server, wait_for};
use crate::impact::rehearse;
use crate::importing::{diff, import_listing};
use crate::searching::search;
use crate::status::{CLOSED, show_status};
use prt_args::{Asked, DONE, FAULT};
use prt_machine::{DatabaseFiles, Host};
use std::alloc::Global;
use std::sync::Wait;

/// Answers what is asked, and returns the exit status: that of `ask`, `diff`, `follow_server`, `wait_for`, `import_listing`,
/// `rehearse`, `assert_claims`, `search`, `apply` or `show_status`.
pub fn answer_question<H: Host>(
    databases: &mut DatabaseFiles<'_, H>,
    alloc: Global,
    asked: &Asked<'_>,
    input: &mut H::Input,
    output: &mut H::Output,
    errors: &mut H::Errors,
) -> u8
    ensures status { (result ≡ DONE) ⊎ ((result ≡ REFUSED) ⊎ ((result ≡ UNREADABLE) ⊎ ((result ≡ CLOSED) ⊎ (result ≡ FAULT)))) }
    ensures whole { result ≡ DONE →
        IsDone H.Store.Store H.Opener.DatabaseOpener
        (sources_of H.Files.opens H.Files.Opened.remaining databases.old.files.now H.Net.reaches H.Net.Stream.remaining databases.old.rt
        (H.Input.remaining input.old)) databases.old.opener databases.new.opener (H.Output.contents output.old)
        (H.Output.contents output.new) asked.now }
    ensures found { result ≡ REFUSED →
        IsFound H.Store.Store H.Opener.DatabaseOpener
        (sources_of H.Files.opens H.Files.Opened.remaining databases.old.files.now H.Net.reaches H.Net.Stream.remaining databases.old.rt
        (H.Input.remaining input.old)) databases.old.opener databases.new.opener (H.Output.contents output.old)
        (H.Output.contents output.new) asked.now }
    ensures unreadable { result ≡ UNREADABLE →
        IsFoundUnreadable H.Store.Store H.Opener.DatabaseOpener
        (sources_of H.Files.opens H.Files.Opened.remaining databases.old.files.now H.Net.reaches H.Net.Stream.remaining databases.old.rt
        (H.Input.remaining input.old)) databases.old.opener databases.new.opener (H.Output.contents output.old)
        (H.Output.contents output.new) asked.now }
    ensures closed { result ≡ CLOSED →
        IsFoundClosed H.Store.Store H.Opener.DatabaseOpener
        (sources_of H.Files.opens H.Files.Opened.remaining databases.old.files.now H.Net.reaches H.Net.Stream.remaining databases.old.rt
        (H.Input.remaining input.old)) databases.old.opener databases.new.opener (H.Output.contents output.old)
        (H.Output.contents output.new) asked.now }
    ensures at_most { IsDoneAtMost H.Store.Store H.Opener.DatabaseOpener
        (sources_of H.Files.opens H.Files.Opened.remaining databases.old.files.now H.Net.reaches H.Net.Stream.remaining databases.old.rt
        (H.Input.remaining input.old)) databases.old.opener databases.new.opener (H.Output.contents output.old)
        (H.Output.contents output.new) asked.now }
{
    match asked {
        Asked::Tables(asking) => ask(databases, alloc, asking, input, output, errors),
        Asked::Diff(diffing) => diff(databases, alloc, diffing, input, output, errors),
        Asked::Follow(following) => {
            let (files, rt) = (databases.files, databases.rt);
            follow_server::<H, _>(files, &rt, alloc, following, input, output, errors)
        }
        Asked::Wait(waiting) => wait_for(&databases.rt, alloc, waiting, errors),
        Asked::Import(importing) => {
            import_listing(databases, alloc, importing, input, output, errors)
        }
        Asked::Impact(rehearsing) => {
            rehearse(databases, alloc, rehearsing, input, output, errors)
        }
        Asked::Assert(asserting) => {
            assert_claims(databases, alloc, asserting, input, output, errors)
        }
        Asked::Unused(source) => search(databases, alloc, source, input, output, errors),
        Asked::Apply(applying) => apply(databases, alloc, applying, input, output, errors),
        Asked::Status(inspecting) => {
            show_status(&databases.rt, alloc, inspecting, output, errors)
        }
    }
}
