//! Lines of changes in no order, the same at each run.
ghost use Rattle.std.specs.Prelude.{◌<◌};

use std::alloc::Global;

// Numbers in no order, the same at each run.
#[derive(Drop)]
pub(super) struct Noise {
    pub(super) state: u64,
}

impl Noise {
    pub(super) fn below(&mut self, n: u64) -> u64
        requires { 0 < n }
        ensures { result < n }
    {
        self.state = self
            .state
            .wrapping_mul(6_364_136_223_846_793_005)
            .wrapping_add(1_442_695_040_888_963_407);
        (self.state >> 33) % n
    }
}

// How many forms of lines there are.
const FORMS: u64 = 24;

// The forms, which bars part. A `#` stands for an id, and a `%` for a rank or an end.
const LINES: &[u8] =
    b"entity user # %|entity user # %|entity user # %|entity user # %|entity photo # %|entity photo # %|gone #|gone #|edge friend # # public|edge friend # # only until %|edge friend # # in:friend:#|edge lives rome # public|edge lives oslo # only|edge lives oslo # public until %|edge tagged # # public|edge tagged # # only|edge shows # # public|edge shows # # only until %|edge shows # # in:friend:#|edge blocked # # public|cut friend # #|cut tagged # #|cut shows # #|cut lives rome #";

// A byte of a line.
fn byte(noise: &mut Noise, form: u8) -> u8 {
    match form {
        b'#' => b'1' + noise.below(8) as u8,
        b'%' => b'1' + noise.below(9) as u8,
        _ => form,
    }
}

// A line of a form.
fn line(alloc: Global, noise: &mut Noise, form: &[u8]) -> Option<Vec<u8>> {
    let mut line = Vec::new(alloc);
    for part in form {
        line.push(byte(noise, *part)).ok()?;
    }
    Some(line)
}

// The form of a number.
fn form(number: u64) -> Option<&'static [u8]> {
    for (at, form) in LINES.split(|byte| *byte == b'|').enumerate() {
        if at as u64 == number {
            return Some(form);
        }
    }
    None
}

// A line of one of the forms.
pub(super) fn any_line(alloc: Global, noise: &mut Noise) -> Option<Vec<u8>> {
    let form = form(noise.below(FORMS))?;
    line(alloc, noise, form)
}
