ghost use Rattle.std.specs.Prelude.{◌≡◌, ◌<◌, ◌%◌};

/// Chooses the replica of a shard that a query reads. No answer depends on it.
pub trait Chooser {
    /// A number below `replicas`. The turn is the line of the query.
    fn pick(&self, vertical: u16, shard: u32, turn: u64, replicas: u32) -> u32
        requires { 0 < replicas }
        ensures { result < replicas };
}

/// Always the first replica.
#[derive(Clone, Copy, Debug)]
pub struct FirstChooser;

/// The replicas in turn, by the line of the query.
#[derive(Clone, Copy, Debug)]
pub struct TurnChooser;

impl Chooser for FirstChooser {
    fn pick(&self, _vertical: u16, _shard: u32, _turn: u64, replicas: u32) -> u32
        requires { 0 < replicas }
        ensures below { result < replicas }
        ensures first { result ≡ 0 }
    {
        0
    }
}

impl Chooser for TurnChooser {
    fn pick(&self, _vertical: u16, _shard: u32, turn: u64, replicas: u32) -> u32
        requires { 0 < replicas }
        ensures below { result < replicas }
        ensures turn { result ≡ turn % replicas }
    {
        (turn % replicas as u64) as u32
    }
}
