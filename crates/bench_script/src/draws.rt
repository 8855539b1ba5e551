ghost use Rattle.std.specs.Prelude.{◌≡◌};
ghost use Rattle.bench_script.specs.BenchScript.{drawn};

/// Numbers that are drawn one after the other from a seed: each is the one before, times 16807, modulo
/// 2147483647.
#[derive(Drop)]
pub(crate) struct Draws {
    pub last: u32,
}

impl Draws {
    pub(crate) fn draw(&mut self) -> u32
        ensures drawn { result ≡ drawn self.old.last }
        ensures last { self.new.last ≡ drawn self.old.last }
    {
        self.last = (self.last as u64 * 16807 % 2147483647) as u32;
        self.last
    }
}
