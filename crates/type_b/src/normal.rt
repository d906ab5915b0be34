ghost use Rattle.std.specs.Prelude.{◌≡◌, true};
ghost use Rattle.type_b.specs.Shapes.{is_level};
ghost use Rattle.type_b.specs.Variances.{normal_factor};

use decimal18::Dec;
use step_table::StepTable;

// The levels of confidence, in percent, and the hundredths of their factors in the same order
// (JCGM 100:2008, 4.3.4).
const LEVELS: [u64; 3] = [90, 95, 99];

const HUNDREDTHS: [i64; 3] = [164, 196, 258];

// How many standard deviations the half-width of an interval at this level has.
pub(crate) fn normal_factor(level: u8) -> Dec
    requires { is_level level ≡ true }
    ensures { result ≡ normal_factor level }
{
    let levels = StepTable::new(LEVELS).unwrap();
    let place = levels.at_or_below(level as u64).unwrap();
    Dec::new(HUNDREDTHS[place], 2).unwrap()
}
