// Sharing a default loss among the members (document 01, "Sharing a default loss"; source 000, article 12-7(2)).
#![tactic(auto)]

ghost use Rattle.std.specs.Prelude.{◌≡◌};
ghost use Rattle.shares.specs.Loss as L;

use crate::layers::shared;
use crate::refusals::refusal;
use rules::{Refusal, Reply};

mod layers;
mod refusals;

// The call: what remains of the loss, with the shares of layer one in `first` and those of layer two in `second`; or a refusal, with nothing
// written. Five lists and not one of members, since the C interface lends them so (`fx_share`).
pub fn share_loss(
    loss: i64,
    deposits: &[i64],
    differences: &[i64],
    marks: &[i64],
    first: &mut [i64],
    second: &mut [i64],
) -> Reply
    ensures { (result, first.new, second.new) ≡ L.loss_shared loss deposits.now differences.now marks.now first.old second.old }
{
    match refusal(
        loss,
        deposits,
        differences,
        marks,
        first.len(),
        second.len(),
    ) {
        Some(refusal) => Reply {
            number: refusal.number(),
            figure: 0,
        },
        None => {
            let rest = shared(
                loss.unsigned_abs(),
                deposits,
                differences,
                marks,
                first,
                second,
            );
            Reply {
                number: 0,
                figure: rest as i64,
            }
        }
    }
}
