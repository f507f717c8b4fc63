//! Runs of drawn orders, about servers that go and come.

ghost use Rattle.qfs_model_rows.specs.DrawnServers.{SleepingServers, OpenedNineTimes, MovedAndRecovered, NoSpareServer, DroppedBetween};

/// Servers that hibernate and come back.
pub fn sleeping_servers()
    ensures { SleepingServers }
{}

/// A get opens its file as often as it may, and finds too few copies each time.
pub fn opened_nine_times()
    ensures { OpenedNineTimes }
{}

/// A copy is moved, and another recovered.
pub fn moved_and_recovered()
    ensures { MovedAndRecovered }
{}

/// Evacuations and a heal that find no server.
pub fn no_spare_server()
    ensures { NoSpareServer }
{}

/// Puts that find no server, and an actor that is dropped.
pub fn dropped_between()
    ensures { DroppedBetween }
{}
