// Numbers that look random: the same for the same history, event and turn, so that a history need not be kept.
ghost use Rattle.std.specs.Prelude.{◌<◌, ◌≤◌};

const LARGE: u64 = 2147483647;

// What is drawn for one event of one history.
#[derive(Clone, Copy)]
pub struct Chance {
    pub seed: u64,
    pub event: u64,
}

fn part(x: u64, range: u64) -> u64
    ensures { result ≤ x }
{
    x.checked_rem(range).unwrap_or(0)
}

impl Chance {
    // Below 2^31.
    pub fn draw(self, turn: u64) -> u64
        ensures { result < 2147483647 }
    {
        let s = self.seed % 1048576;
        let k = self.event % 4096;
        let t = turn % 16;
        let x = (s * 1103515245 + k * 26544357 + t * 7919 + 12345) % LARGE;
        let y = (x * 48271 + 11) % LARGE;
        y * 69621 % LARGE
    }

    // From low on, below low + range.
    pub fn drawn(self, turn: u64, low: i64, range: u64) -> i64 {
        if !(-1000000000000000..=1000000000000000).contains(&low) {
            return low;
        }
        low + part(self.draw(turn), range) as i64
    }
}
