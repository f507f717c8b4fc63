//! Gets and puts while servers are down, were emptied or fail.

ghost use Rattle.qfs_model_rows.specs.Failures.{DegradedGet, TooFewListed, TooFewAnswer, ThreeFetchesFail, FourFetchesFail, NoServerUp, EmptiedServer, PutFails, LastPutFails};

/// A get restores what stands on three servers that are down.
pub fn degraded_get()
    ensures { DegradedGet }
{}

/// Four servers are down before a get opens its file, as often as it may.
pub fn too_few_listed()
    ensures { TooFewListed }
{}

/// Four servers go down while a get reads, and are down when it opens its file again.
pub fn too_few_answer()
    ensures { TooFewAnswer }
{}

/// Three devices fail while a get reads.
pub fn three_fetches_fail()
    ensures { ThreeFetchesFail }
{}

/// Four devices fail while a get reads: each of the four slots has its cause.
pub fn four_fetches_fail()
    ensures { FourFetchesFail }
{}

/// A put gives its file up where a slot finds no server.
pub fn no_server_up()
    ensures { NoServerUp }
{}

/// A get reads around a server that was emptied.
pub fn emptied_server()
    ensures { EmptiedServer }
{}

/// A slot whose server failed goes to another, and the next slot may go there.
pub fn put_fails()
    ensures { PutFails }
{}

/// A put gives its file up where the last server failed.
pub fn last_put_fails()
    ensures { LastPutFails }
{}
