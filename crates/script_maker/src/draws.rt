ghost use Rattle.std.specs.Prelude.{◌≡◌, ◌^◌, ◌<◌};
ghost use Rattle.script_maker.specs.Draws.{next, drawn};

/// The factor by which a state is multiplied.
const MULTIPLIER: u64 = 1_103_515_245;

/// What is added to the product.
const INCREMENT: u64 = 12_345;

/// The states are below this.
const MODULUS: u64 = 1 << 31;

/// The numbers of a script, drawn one after the other.
#[derive(Drop)]
pub(crate) struct Draws {
    state: u64,
    ghost small: { state < 2 ^ 31 },
}

impl Draws {
    /// The draws that begin at this state.
    pub(crate) fn new(start: u32) -> Draws
        requires { start < 2 ^ 31 }
        ensures { result.state ≡ start }
    {
        Draws {
            state: start as u64,
        }
    }

    /// Draws a number below `m`.
    pub(crate) fn draw(&mut self, m: u64) -> u64
        requires { 0 < m }
        ensures number { result ≡ drawn self.old.state m }
        ensures small { result < m }
        ensures state { self.new.state ≡ next self.old.state }
    {
        self.state = (MULTIPLIER * self.state + INCREMENT) % MODULUS;
        self.state / 65536 % m
    }
}
