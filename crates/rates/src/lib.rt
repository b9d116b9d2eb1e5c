// Margin rates from price history (request M-105; source 001, article 4).
#![tactic(auto)]

ghost use Rattle.std.specs.Prelude.{◌≡◌, ◌&&◌, leb, pos};
ghost use Rattle.rates.specs.MarginRate.{most_count, window_rate, governs, rated, part_of};
ghost use Rattle.rates.specs.JudgedLaws as J;

use crate::root::root;
use crate::windows::Window;
use rules::Refusal;

mod root;
mod windows;

// What two windows come to: the larger rate, and the window that gave it.
#[derive(Clone, Copy)]
struct Judged<'a> {
    rate: i64,
    figures: &'a [i64],
}

// 2 to 520 figures.
fn length_ok(n: usize) -> bool
    ensures { result ≡ (leb 2 n && leb n most_count) }
{
    (2..=520).contains(&n)
}

// The larger rate, by one root: that of the larger square. The 8-week window gave it too unless a rate one less is enough for it.
fn larger<'a>(weeks8: Window<'a>, weeks104: Window<'a>) -> Judged<'a>
    ensures rate { result.rate ≡ pos (window_rate (governs weeks8.entry.figures weeks104.entry.figures).now) }
    ensures figures { part_of result.figures ≡ part_of (governs weeks8.entry.figures weeks104.entry.figures) }
{
    let square8 = weeks8.square();
    let square104 = weeks104.square();
    let rate = root(square8.max(square104));
    let less = rate - 1;
    let eight = less * less < square8;
    Judged {
        rate: rate as i64,
        figures: if eight {
            weeks8.figures
        } else {
            weeks104.figures
        },
    }
}

// Both lengths are tested before a figure is read.
#[tactic(auto, unfolding(crate::specs::MarginRate::rated, crate::specs::MarginRate::refusal))]
fn judge<'a>(weeks8: &'a [i64], weeks104: &'a [i64]) -> Result<Judged<'a>, Refusal>
    ensures { J.answer result weeks8.entry ≡ rated weeks8.entry weeks104.entry }
{
    if !length_ok(weeks8.len()) || !length_ok(weeks104.len()) {
        return Err(Refusal::Lists);
    }
    let weeks8 = Window::read(weeks8).ok_or(Refusal::OutOfRange)?;
    let weeks104 = Window::read(weeks104).ok_or(Refusal::OutOfRange)?;
    Ok(larger(weeks8, weeks104))
}

// The call. `weeks8` and `weeks104` are the logarithms of the price ratios of 8 and of 104 weeks, in whole hundred-thousandths. The window that gave the
// larger rate is handed back, itself and no copy; where the call is refused, the empty part at the start of `weeks8`.
// `number` and `rate` are written, and not returned: the theorem `governing` of tight speaks of them so.
pub fn governing<'a>(
    weeks8: &'a [i64],
    weeks104: &'a [i64],
    number: &mut u64,
    rate: &mut i64,
) -> &'a [i64]
    ensures { (number.new, rate.new, part_of result) ≡ rated weeks8.entry weeks104.entry }
{
    match judge(weeks8, weeks104) {
        Ok(judged) => {
            *number = 0;
            *rate = judged.rate;
            judged.figures
        }
        Err(refusal) => {
            *number = refusal.number();
            *rate = 0;
            &weeks8[..0]
        }
    }
}
