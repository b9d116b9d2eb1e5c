// The sharing of a loss: three lists by member, and two that the shares are written to.
use crate::reading::Case;
use crate::sums;

pub fn agrees(mut case: Case) -> bool {
    let mut loss = [0; 1];
    let mut deposits = [0; 512];
    let mut differences = [0; 512];
    let mut marks = [0; 512];
    let mut first = [0; 512];
    let mut second = [0; 512];
    case.list(&mut loss);
    let d = case.list(&mut deposits);
    let e = case.list(&mut differences);
    let m = case.list(&mut marks);
    let f = case.list(&mut first);
    let s = case.list(&mut second);
    let reply = shares::share_loss(
        loss[0],
        &deposits[..d],
        &differences[..e],
        &marks[..m],
        &mut first[..f],
        &mut second[..s],
    );
    let sum = sums::pair_sum(&first[..f], &second[..s]);
    case.ends(reply.number, [reply.figure, sum])
}
