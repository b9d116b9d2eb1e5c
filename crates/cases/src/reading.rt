// The lists and the figures of a case, read from its line.
ghost use Rattle.std.specs.Prelude.{◌≤◌, length};

use lines::LOST;

// A line, and the place that it is read to, or LOST.
#[derive(Clone, Copy)]
pub struct Case<'a> {
    pub line: &'a [u8],
    pub at: usize,
}

impl<'a> Case<'a> {
    // Behind the letter of its kind.
    pub fn of(line: &'a [u8]) -> Case<'a> {
        Case { line, at: 2 }
    }

    // A figure, closed by a space.
    fn figure(&mut self) -> i64 {
        let f = lines::field_at(self.line, self.at, b' ');
        self.at = f.next;
        f.value
    }

    // A count and so many figures, which `out` then begins with: how many they are. A list that `out` has no room for is lost.
    pub fn list(&mut self, out: &mut [i64]) -> usize
        ensures { result ≤ length out.old }
    {
        let count = self.figure().unsigned_abs() as usize;
        if count > out.len() {
            self.at = LOST;
            return 0;
        }
        for x in &mut out[..count] {
            *x = self.figure();
        }
        count
    }

    // Whether the line ends with a number and these figures.
    pub fn ends<const N: usize>(mut self, number: u64, figures: [i64; N]) -> bool {
        let first = self.figure();
        let mut wanted = [0; N];
        let end = lines::figures_into(self.line, self.at, N, &mut wanted, 0);
        end == self.line.len()
            && u64::try_from(first).is_ok_and(|n| n == number)
            && wanted == figures
    }
}
