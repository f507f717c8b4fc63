//! The choice of a server by its load.
ghost use Rattle.std.specs.Prelude.{◌≡◌, ◌≤◌, [], length, IfSome};
ghost use Rattle.std.specs.List.{reduce};
ghost use Rattle.qfs_base.specs.Sizes.{MOST_SERVERS};
ghost use Rattle.qfs_model_meta.specs.Grammar.{IsServer};
ghost use Rattle.qfs_model_meta.specs.Placing.{is_open, open_servers, lighter, heavier, choose};
ghost use Rattle.qfs_place.specs.Choosing.{better_of, best_with, uneven};

use qfs_base::image::{Census, Load};
use qfs_base::numbers::ServerId;
use qfs_base::server_set::ServerSet;

/// A server's number and load.
pub type Numbered = (ServerId, Load);

/// Which of the servers is looked for.
#[derive(Clone, Copy)]
enum Wanted {
    Lightest,
    Heaviest,
}

/// Two servers of which the first has at least two copies more.
#[derive(Clone, Copy)]
pub struct Shift {
    pub giver: ServerId,
    pub taker: ServerId,
}

/// Whether a server may get a new chunk: it is up, not leaving and not barred.
#[tactic(auto, unfolding(qfs_model_meta::specs::Placing::is_open))]
fn is_open(barred: &ServerSet, server: &Numbered) -> bool
    ensures { result ≡ is_open barred.now server.now }
{
    server.1.up && !server.1.leaving && !barred.contains(server.0)
}

/// The better one of two servers, and of two with the same load the first.
#[tactic(auto, unfolding(qfs_model_meta::specs::Placing::lighter, qfs_model_meta::specs::Placing::heavier))]
fn better_of(wanted: Wanted, best: Numbered, next: Numbered) -> Numbered
    ensures { result ≡ better_of wanted best next }
{
    let wins = match wanted {
        Wanted::Lightest => next.1.count < best.1.count,
        Wanted::Heaviest => best.1.count < next.1.count,
    };
    if wins { next } else { best }
}

/// The best one of those that may get a new chunk, once one more server was looked at.
fn best_with(
    wanted: Wanted,
    barred: &ServerSet,
    best: Option<Numbered>,
    next: Numbered,
) -> Option<Numbered>
    ensures { result ≡ best_with wanted barred.now best next }
{
    if !is_open(barred, &next) {
        return best;
    }
    match best {
        Some(best) => Some(better_of(wanted, best, next)),
        None => Some(next),
    }
}

/// The best one of the servers that may get a new chunk, and of several with the same load the
/// first.
fn best_of(wanted: Wanted, census: &Census, barred: &ServerSet) -> Option<Numbered>
    requires { length census.now ≤ MOST_SERVERS }
    ensures { result ≡ reduce (better_of wanted) (open_servers barred.now census.now) }
{
    let loads = census.as_slice();
    let mut best = None;
    for (at, load) in loads.iter().enumerate() {
        best = best_with(wanted, barred, best, (at as ServerId + 1, *load));
    }
    best
}

/// Of the servers that are up, not leaving and not barred, the one with the lowest load, and
/// among equals the one with the smallest number. None where there is no such server.
pub fn lightest(census: &Census, barred: &ServerSet) -> Option<Numbered>
    requires { length census.now ≤ MOST_SERVERS }
    ensures { result ≡ reduce lighter (open_servers barred.now census.now) }
{
    best_of(Wanted::Lightest, census, barred)
}

/// The same of the highest load.
pub fn heaviest(census: &Census, barred: &ServerSet) -> Option<Numbered>
    requires { length census.now ≤ MOST_SERVERS }
    ensures { result ≡ reduce heavier (open_servers barred.now census.now) }
{
    best_of(Wanted::Heaviest, census, barred)
}

/// The number of the server that a new chunk goes to: of those that are up, not leaving and not
/// barred the one with the lowest load, and among equals the one with the smallest number. None
/// exactly where there is no such server. It takes no memory.
pub fn choose(census: &Census, barred: &ServerSet) -> Option<ServerId>
    requires servers { length census.now ≤ MOST_SERVERS }
    ensures chosen { result ≡ choose census.now barred.now }
    ensures number { IfSome result (IsServer (length census.now)) }
{
    lightest(census, barred).map(|server| server.0)
}

/// From which server to which one copy is to move so that the loads of those that are up and not
/// leaving get more even: from the one with the highest load to the one with the lowest, and each
/// time the first among equals. None where these differ by less than two copies, or where no
/// server is up and not leaving.
pub fn uneven(census: &Census) -> Option<Shift>
    requires { length census.now ≤ MOST_SERVERS }
    ensures { result ≡ uneven census.now }
{
    let none = ServerSet::none();
    let giver = heaviest(census, &none)?;
    let taker = lightest(census, &none)?;
    if (taker.1.count as u64) + 2 > giver.1.count as u64 {
        return None;
    }
    Some(Shift {
        giver: giver.0,
        taker: taker.0,
    })
}
