ghost use Rattle.std.specs.Prelude.{◌≡◌, ◌<◌};
ghost use Rattle.boss_server.specs.Shares.{share_of};

/// How many of the connections are this worker's, of so many that serve connections: the first ones have one more, where the
/// connections can't be shared out evenly.
pub(crate) fn share_for(connections: u32, workers: u32, number: u32) -> u32
    requires { number < workers }
    ensures { result ≡ share_of connections workers number }
{
    let share = connections / workers;
    if number < connections % workers {
        share + 1
    } else {
        share
    }
}
