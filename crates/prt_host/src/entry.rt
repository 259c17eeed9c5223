//! A run of the program over the databases of a machine.
ghost use Rattle.prt_host.specs.Runs.{RunsPrt};
ghost use Rattle.prt_program.specs.Program.{streams_of};
ghost use Rattle.prt_questions.specs.Sources.{sources_of};
ghost use Rattle.prt_args.specs.Invocation.{arguments, invocation};

use crate::server::serve;
use crate::telling::{tell_failure, tell_failures};
use prt_machine::{DatabaseFiles, Host, StreamsOf};
use prt_program::{Next, program};
use prt_questions::{answer_question, submit_script};
use std::alloc::Global;

/// Runs the program with these words over the databases of a machine, or serves, has a server run a script, or answers a
/// question, and returns its exit status.
///
/// A script, a check or a replay is run as `program` says, and no database is touched if none is asked for. Over a
/// database the run begins with what its opening made of the connection that was found. Each state that a later opening
/// may make of what was left then is one that the session left stored (`runs_go_on` has the premises).
///
/// At the end `errors` says why the input or the output failed, if one did.
pub fn run<H: Host>(
    databases: &mut DatabaseFiles<'_, H>,
    alloc: Global,
    words: &[String],
    input: &mut H::Input,
    output: &mut H::Output,
    mut errors: H::Errors,
) -> u8
    ensures { RunsPrt H.Store.Store H.Opener.DatabaseOpener databases.old.opener databases.new.opener
        (H.Files.opens databases.old.files.now) H.Files.Opened.remaining
        (sources_of H.Files.opens H.Files.Opened.remaining databases.old.files.now H.Net.reaches H.Net.Stream.remaining databases.old.rt
        (H.Input.remaining input.old)) (invocation (arguments words.now))
        (streams_of (H.Input.remaining input.old) (H.Output.contents output.old) (H.Output.contents output.new)) result }
{
    let files = databases.files;
    let next = program::<_, _, StreamsOf<H>>(
        files,
        databases,
        alloc,
        words,
        input,
        output,
        &mut errors,
    );
    tell_failures(alloc, input, output, &mut errors);
    match next {
        Next::Exit(status) => status,
        Next::Serve(serving) => serve(databases, alloc, &serving, output, errors),
        Next::Submit(submitting) => {
            let (files, rt) = (databases.files, databases.rt);
            let status = submit_script::<H, _>(
                files,
                &rt,
                alloc,
                &submitting,
                input,
                output,
                &mut errors,
            );
            tell_failures(alloc, input, output, &mut errors);
            status
        }
        Next::Ask(asked) => {
            let status = answer_question(databases, alloc, &asked, input, output, &mut errors);
            tell_failure(alloc, "standard output", output, &mut errors);
            status
        }
    }
}
