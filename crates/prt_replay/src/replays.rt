//! Replay files with their traces, computed with the definitions alone.
ghost use Rattle.std.specs.Prelude.{◌≡◌, codes};
ghost use Rattle.prt_replay.specs.Replay.{replay_text};

/// Stops the transaction of a command: before its commit, within it, and after it.
pub fn stop_round_commit()
    ensures after { replay_text (codes "submit route add default dev eth0\ncall\ncall\ncall\ncall\nstop lost\nreopen\n")
        ≡ codes "prepared 1\nbegin\nwrite\ncount\ncommit\nstop\nreopen 1\n" }
    ensures kept { replay_text (codes "submit route add default dev eth0\ncall\ncall\ncall\nstop kept\nreopen\n")
        ≡ codes "prepared 1\nbegin\nwrite\ncount\nstop\nreopen 1\n" }
    ensures lost { replay_text (codes "submit route add default dev eth0\ncall\ncall\ncall\nstop lost\nreopen\n")
        ≡ codes "prepared 1\nbegin\nwrite\ncount\nstop\nreopen 0\n" }
{}

/// Stops the transaction of two commands: before its last call, within it, and after it.
pub fn stop_round_atomic_commit()
    ensures after { replay_text (codes "submitall route add default dev eth0 ; rule add table 7\ncall\ncall\ncall\ncall\ncall\nstop lost\nreopen\n")
        ≡ codes "prepared 2\nbegin\nwrite\nwrite\ncount\ncommit\nstop\nreopen 2\n" }
    ensures kept { replay_text (codes "submitall route add default dev eth0 ; rule add table 7\ncall\ncall\ncall\ncall\nstop kept\nreopen\n")
        ≡ codes "prepared 2\nbegin\nwrite\nwrite\ncount\nstop\nreopen 2\n" }
    ensures lost { replay_text (codes "submitall route add default dev eth0 ; rule add table 7\ncall\ncall\ncall\ncall\nstop lost\nreopen\n")
        ≡ codes "prepared 2\nbegin\nwrite\nwrite\ncount\nstop\nreopen 0\n" }
    ensures before { replay_text (codes "submitall route add default dev eth0 ; rule add table 7\ncall\ncall\ncall\nstop kept\nreopen\n")
        ≡ codes "prepared 2\nbegin\nwrite\nwrite\nstop\nreopen 0\n" }
{}

/// Refuses commands together for the first refused one, and acknowledges others with the last number.
pub fn atomic_commands()
    ensures refused { replay_text (codes "submitall route add default dev eth0 ; route add default dev eth1\ncall\n")
        ≡ codes "error 21 Exists\nnone\n" }
    ensures acknowledged { replay_text
        (codes "submitall route add default dev eth0 ; rule add table 7\ncall\ncall\ncall\ncall\ncall\npublish\nnote\nack\nreclaim\n")
        ≡ codes "prepared 2\nbegin\nwrite\nwrite\ncount\ncommit\npublished 2\nnoted 2\nok 2\nreclaim 1\n" }
{}

/// Lets a looker hold back the version that it may hold, until it announces a later one.
pub fn grace_period()
    ensures { replay_text (codes "online 0\nsubmit route add default dev eth0\ncall\ncall\ncall\ncall\npublish\nnote\nack\nfetch 0\nreclaim\nlook 0 route get 10.0.0.1\nannounce 0\nreclaim\n")
        ≡ codes "online 0 0\nprepared 1\nbegin\nwrite\ncount\ncommit\npublished 1\nnoted 1\nok 1\nfetch 0 1\nreclaim 0\nanswer 1 rule 32766 table main default dev eth0 scope link\nannounce 0 1\nreclaim 1\n" }
{}

/// Lets a store call fail: no command is accepted any more, lookups go on, and the database has to be opened again.
pub fn failed_write()
    ensures lost { replay_text
        (codes "online 0\nfetch 0\nsubmit route add default dev eth0\ncall\ncall\nfail lost\nsubmit rule flush\nlook 0 route get 10.0.0.1\nreopen\n")
        ≡ codes "online 0 0\nfetch 0 0\nprepared 1\nbegin\nwrite\nerror 27 StoreFailed\nerror 20 Closed\nanswer 0 none\nreopen 0\n" }
    ensures kept { replay_text (codes "online 0\nfetch 0\nsubmit route add default dev eth0\ncall\ncall\ncall\nfail kept\nsubmit rule flush\nlook 0 route get 10.0.0.1\nreopen\n")
        ≡ codes "online 0 0\nfetch 0 0\nprepared 1\nbegin\nwrite\ncount\nerror 27 StoreFailed\nerror 20 Closed\nanswer 0 none\nreopen 1\n" }
{}

/// Answers a replay file that has a line which is no event with its refusal alone.
pub fn refused_events()
    ensures looker { replay_text (codes "online 64\n") ≡ codes "error 11 BadNumber\n" }
    ensures no_fate { replay_text (codes "fail\n") ≡ codes "error 6 MissingValue\n" }
    ensures more { replay_text (codes "reclaim now\n") ≡ codes "error 5 UnknownWord\n" }
    ensures no_line { replay_text (codes "submit\n") ≡ codes "error 14 MissingDestination\n" }
    ensures query { replay_text (codes "look 0 route show\n") ≡ codes "error 4 UnknownVerb\n" }
{}
